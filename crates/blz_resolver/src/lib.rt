//! Answers for addresses of an ELF image and its companions, from its path to functions, source lines and inlined calls.
#![tactic(auto)]

mod answers;
mod call_list;
mod debug;
mod fault;
mod functions;
pub mod laws;
mod names;
mod opening;
pub mod outside;
mod preparing;
mod resolver;
mod rows;
mod scan;
mod warm;

pub use blz_bundle::{Bundle, Companion, OwnedBundle};
pub use blz_links::files;
pub use call_list::{Command, Reply, replies};
pub use resolver::ElfResolver;
pub use rows::UnitRows;
pub use scan::symbolize;
pub use warm::Warm;
