//! Ranges of addresses in lists: which of them cover an address, and an index that finds the best one in few looks.
#![tactic(auto)]

mod group_index;
mod grouped;
pub mod laws;
mod ordered;
mod owned_ranges;
mod owners;
mod placed;
mod range_index;
mod skips;
mod span;
mod turned;

pub use group_index::GroupIndex;
pub use grouped::{Grouped, group_keys};
pub use owned_ranges::{OwnedRanges, fitted, number_at};
pub use owners::own;
pub use range_index::RangeIndex;
pub use span::Span;
