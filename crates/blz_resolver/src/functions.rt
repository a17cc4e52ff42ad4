//! Functions of units as they are answered and listed.

pub mod function;
pub mod functions_named;
pub mod functions_shown;
