//! What the readers of debug information need of a file, whatever its format: the relocations of its sections, and
//! whether a listing goes on.
#![tactic(auto)]

mod flow;
mod relocation;

pub use flow::Flow;
pub use relocation::{RelocationMap, SectionRelocations};
