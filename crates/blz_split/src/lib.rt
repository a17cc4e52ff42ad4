//! Packages of split units: the index of their units, and the sections that a split unit is read from.
#![tactic(auto)]

mod dwo_section;
mod id_rows;
mod package;
mod split_unit;
mod tables;

pub use id_rows::IdRows;
pub use package::Package;
pub use split_unit::{Piece, SplitUnit};
