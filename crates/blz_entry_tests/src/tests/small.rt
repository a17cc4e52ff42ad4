//! Small sections and units.
ghost use Rattle.std.specs.Prelude.{◌≡◌, [], IfOk};

use blz_entry::{
    Abbreviations, Entries, RangeAttributes, Section, Sections, UnitHeader, UnitKind, UnitRoot,
};
use blz_error::Result;
use blz_model::ByteOrder;
use blz_relocations::RelocationMap;

/// Bytes in the little-endian order.
pub fn section<'s, 'b>(bytes: &'b [u8], relocations: &'s RelocationMap) -> Section<'s, 'b> {
    Section {
        bytes,
        relocations,
        order: ByteOrder::Little,
    }
}

/// Sections that are all empty.
pub fn no_sections(relocations: &RelocationMap) -> Sections<'_, 'static>
    ensures { result.shift ≡ 0 }
{
    let empty = section(b"", relocations);
    Sections {
        abbrev: empty,
        addr: empty,
        aranges: empty,
        info: empty,
        line: empty,
        line_str: empty,
        ranges: empty,
        rnglists: empty,
        strings: empty,
        str_offsets: empty,
        sup_strings: None,
        shift: 0,
        split: false,
        sup: false,
    }
}

/// A unit of 32-bit DWARF with addresses of 8 bytes.
pub fn header(version: u16) -> UnitHeader {
    UnitHeader {
        start: 0,
        entries: 0,
        end: 0,
        version,
        wide: false,
        address_size: 8,
        kind: UnitKind::Compile,
        abbrev: 0,
        id: 0,
    }
}

/// The entries from a place on, in a unit of version 5 that has nothing but entries.
pub fn entries_at<'s, 'b>(
    info: &'b [u8],
    relocations: &'s RelocationMap,
    abbreviations: &'s Abbreviations,
    at: usize,
) -> Result<Entries<'s, 'b>>
    ensures { IfOk result (λ e. e.pending ≡ []) }
{
    let sections = Sections {
        info: section(info, relocations),
        ..no_sections(relocations)
    };
    let unit = UnitHeader {
        end: info.len(),
        ..header(5)
    };
    Entries::new(sections, unit, abbreviations, at)
}

/// A root that tells where ranges count from, and where addresses and lists by their index begin.
pub fn root(low_pc: u64) -> UnitRoot {
    UnitRoot {
        name: None,
        comp_dir: None,
        line: None,
        low_pc,
        language: None,
        str_offsets_base: 0,
        addr_base: 8,
        rnglists_base: 4,
        ranges: RangeAttributes::default(),
    }
}
