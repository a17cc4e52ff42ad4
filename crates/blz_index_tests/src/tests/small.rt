//! Files of units, in the little-endian order.
ghost use Rattle.std.specs.Prelude.{◌≡◌, length, IfOk};
ghost use Rattle.std.specs.FinMap as map;
ghost use Rattle.blz_index.specs.UnitsWarm.{UnitsFit, units_table};
ghost use Rattle.blz_units.specs.BuiltUnits.{files_view, IsReadable};

use blz_bytes::Orders;
use blz_entry::{Section, Sections, Texts};
use blz_error::{Error, ErrorKind, Result, Str};
use blz_index::{Dwarf, Units};
use blz_model::ByteOrder;
use blz_relocations::RelocationMap;
use std::alloc::Global;

fn section<'s, 'b>(bytes: &'b [u8], none: &'s RelocationMap) -> Section<'s, 'b> {
    Section {
        bytes,
        relocations: none,
        order: ByteOrder::Little,
    }
}

/// The sections of a file of units: the units, their abbreviations and their line programs.
#[derive(Clone, Copy)]
pub struct Parts<'b> {
    pub info: &'b [u8],
    pub abbrev: &'b [u8],
    pub line: &'b [u8],
}

/// A file of these sections.
pub fn file_of<'s, 'b>(parts: &Parts<'b>, none: &'s RelocationMap) -> Dwarf<'s, 'b>
    requires { none.now ≡ map.empty }
    ensures { IsReadable result }
{
    let empty = section(&[], none);
    let main = Sections {
        abbrev: section(parts.abbrev, none),
        addr: empty,
        aranges: empty,
        info: section(parts.info, none),
        line: section(parts.line, none),
        line_str: empty,
        ranges: empty,
        rnglists: empty,
        strings: empty,
        str_offsets: empty,
        sup_strings: None,
        shift: 0,
        split: false,
        sup: false,
    };
    Dwarf {
        main,
        texts: Texts {
            info: main.info.bytes,
            line: main.line.bytes,
            strings: main.strings.bytes,
            line_str: main.line_str.bytes,
            sup_strings: &[],
            pack_info: &[],
            pack_strings: &[],
            sup_info: &[],
            sup_line_str: &[],
        },
        package: None,
        none,
        sup: None,
    }
}

/// The units of a file that has one.
pub fn only_unit<O: Orders>(alloc: Global, orders: &mut O, dwarf: &Dwarf<'_, '_>) -> Result<Units>
    requires { IsReadable dwarf.now }
    ensures fits { IfOk result (UnitsFit (files_view dwarf.now)) }
    ensures one { IfOk result (λ u. length (units_table u).kept ≡ 1) }
{
    let units = Units::parse(alloc, orders, dwarf)?;
    match units.len() {
        1 => Ok(units),
        _ => Err(Error::new(ErrorKind::InvalidData, Str::fixed("not one unit"))),
    }
}

/// The kind of a refusal.
pub fn refusal<T: Drop>(outcome: Result<T>) -> Option<ErrorKind> {
    match outcome {
        Ok(_) => None,
        Err(error) => Some(error.kind()),
    }
}
