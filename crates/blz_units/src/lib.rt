//! The table of the units of a file: which are kept, what they announce, what is built of them, and what is told of them by what is kept.
#![tactic(auto)]

pub mod announced;
pub mod built_unit;
pub mod built_units;
pub mod caches;
pub mod dwarf;
mod kept_units;
pub mod look;
pub mod shared;
pub mod unit_list;
pub mod unit_table;
mod words;
