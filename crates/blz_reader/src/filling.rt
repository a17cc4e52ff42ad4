//! What is read of units and kept.

pub mod build;
pub mod fill;
pub mod marks;
pub mod prepare;
pub mod puts;
pub mod read;
