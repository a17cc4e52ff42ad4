//! Stacks of addresses with counts become stacks of names with counts.
#![tactic(auto)]

mod counting;
mod distinct_addresses;
mod folded;
mod folding;
mod lines;
mod name_table;
mod named_lines;
mod parsing;
mod printing;
mod program;
mod room;
mod stack_fault;
mod stack_list;
mod texts;
mod tree;

pub use folded::{FoldLine, FoldNode, Folded, Names};
pub use folding::fold;
pub use parsing::parse_stacks;
pub use program::{blz_fold, run_fold};
pub use stack_fault::StackFault;
pub use stack_list::{Addresses, Stack, Stacks};
