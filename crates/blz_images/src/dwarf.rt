//! Sections of debug information.

pub(crate) mod attribute;
pub mod codes;
pub(crate) mod debug_info;
pub(crate) mod debug_line;
pub(crate) mod package;
pub(crate) mod tables;
pub(crate) mod units;
