//! Functions, source lines and inlined calls of the units of a file, found by address and by name.
#![tactic(auto)]

mod cold;
pub mod laws;
mod prepared;
mod units;

pub use blz_functions::{Function, Functions, InlinedFunction, InlinedFunctions};
pub use blz_ranges::RangeIndex;
pub use blz_reader::sites::{InlinedSite, InlinedSites};
pub use blz_reader::visit_function::VisitFunction;
pub use blz_units::announced::units_at::UnitsAt;
pub use blz_units::dwarf::Dwarf;
pub use blz_units::unit_table::check_sup_units;
pub use units::Units;
