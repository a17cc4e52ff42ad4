//! What a line program is read by.
ghost use Rattle.std.specs.Prelude.{◌≡◌};
ghost use Rattle.blz_units.specs.SharedPrograms.{program_key};

use blz_entry::{UnitHeader, UnitRoot};

/// What a line program is read by besides its offset: the size of addresses, and how the strings of its files are found.
#[derive(Clone, Copy, PartialEq, Eq, PartialOrd, Ord)]
pub struct LinesKey {
    pub address_size: u8,
    pub wide: bool,
    pub str_offsets_base: u64,
}

/// What a line program is read by, and its offset, in an order of its own.
#[derive(Clone, Copy, PartialEq, Eq, PartialOrd, Ord)]
pub struct ProgramKey {
    pub lines: LinesKey,
    pub offset: u64,
}

/// The key of the line program at an offset, as a unit reads it.
pub(crate) fn program_key(header: &UnitHeader, root: &UnitRoot, at: u64) -> ProgramKey
    ensures { result ≡ program_key header.now root.now at }
{
    let lines = LinesKey {
        address_size: header.address_size,
        wide: header.wide,
        str_offsets_base: root.str_offsets_base,
    };
    ProgramKey { lines, offset: at }
}
