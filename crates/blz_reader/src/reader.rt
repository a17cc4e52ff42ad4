//! What units are read from.

use blz_units::dwarf::Dwarf;
use blz_units::unit_table::UnitTable;
use std::alloc::Global;

/// The files that units are read from, and the table of their units.
#[derive(Clone, Copy)]
pub struct Reader<'r, 's, 'b> {
    pub alloc: Global,
    pub dwarf: &'r Dwarf<'s, 'b>,
    pub table: &'r UnitTable,
}
