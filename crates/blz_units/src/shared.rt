//! What units share by the offset at which it is.

pub(crate) mod program_key;
pub mod shared_package;
pub mod shared_parts;
pub(crate) mod shared_programs;
