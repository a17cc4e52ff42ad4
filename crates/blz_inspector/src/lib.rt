//! The symbols of files by their paths. What was opened and read of a file is kept, as long as its stamp stays.
#![tactic(auto)]

mod entry;
mod found;
mod inspector;
mod lookup;
mod opening;
mod source;

pub use found::{Found, FoundInfos};
pub use inspector::Inspector;
pub use source::{Elf, Source};
