//! How a walk over entries passes over attributes, and reads those that are wanted.

pub mod passing;
pub mod ready;
pub mod runs;
pub mod wanted;
