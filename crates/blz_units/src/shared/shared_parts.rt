//! What the units of a file share, read once.
ghost use Rattle.std.specs.Prelude.{◌≡◌, map, true, Some, option_map, IfOk, IfSome};
ghost use Rattle.std.specs.Arc.{arc_value};
ghost use Rattle.std.specs.BTreeMap.{get};
ghost use Rattle.std.specs.Ordering.{nat_cmp};
ghost use Rattle.blz_model.specs.Part.{Gives};
ghost use Rattle.blz_info.specs.AbbreviationTables.{abbreviations};
ghost use Rattle.blz_info.specs.Marks.{or_invalid};
ghost use Rattle.blz_info.specs.FileSections.{FileSections, sections_view};
ghost use Rattle.blz_line.specs.Lookups.{spans_of};
ghost use Rattle.blz_line.specs.UnitLines.{OrderedLines, lines_of};
ghost use Rattle.blz_ranges.specs.Keyed.{IsAccepted, begin_key};
ghost use Rattle.blz_units.specs.BuiltUnits.{line_header};
ghost use Rattle.blz_units.specs.Sharing.{sizes_of, table_key, table_kept, AreShared};

use crate::shared::shared_programs::SharedPrograms;
use blz_bytes::{Orders, Room};
use blz_entry::{Abbreviations, Sections, UnitHeader, UnitRoot};
use blz_error::Result;
use blz_line::{LineHeader, Lines};
use std::alloc::{AllocError, Global};
use std::collections::BTreeMap;
use std::sync::Arc;

/// The tables of abbreviations that were read, by the sizes of units that they are ready for and their offsets, the offsets
/// at which line programs have headers, each with the size of addresses that it was read with, and the line programs.
#[derive(Drop)]
pub struct SharedParts {
    pub tables: BTreeMap<(u64, u64), Arc<Abbreviations>>,
    pub headers: BTreeMap<u64, u8>,
    pub programs: SharedPrograms,
}

/// The sizes of the fields of a unit as one number.
fn sizes_of(header: &UnitHeader) -> u64
    ensures { result ≡ sizes_of header.now }
{
    let wide = if header.wide { 2 } else { 0 };
    let address = if header.address_size == 8 { 1 } else { 0 };
    header.version as u64 * 4 + wide + address
}

fn table_key(header: &UnitHeader) -> (u64, u64)
    ensures { result ≡ table_key header.now }
{
    (sizes_of(header), header.abbrev)
}

/// The abbreviations of a unit.
fn read_table(
    alloc: Global,
    room: &mut Room,
    sections: &Sections<'_, '_>,
    header: &UnitHeader,
) -> Result<Arc<Abbreviations>>
    ensures { Gives arc_value result (or_invalid
        (abbreviations (sections_view sections.now).«abbrev».bytes header.now.«abbrev»)) }
{
    let table = Abbreviations::parse_for(
        alloc,
        room,
        sections.abbrev.bytes,
        header.abbrev,
        header.encoding(),
    )?;
    Ok(Arc::new(alloc, table)?)
}

/// Asks for the header of the line program at an offset.
fn read_header(
    alloc: Global,
    room: &mut Room,
    sections: &Sections<'_, '_>,
    at: u64,
    address_size: u8,
) -> Result<()>
    ensures { Gives (λ _. tt) result
        (or_invalid (line_header (sections_view sections.now) at address_size)) }
{
    LineHeader::parse_within(alloc, room, sections, at, address_size)?;
    Ok(())
}

impl SharedParts {
    /// Nothing; takes no memory.
    pub fn new(alloc: Global) -> SharedParts
        ensures { (s : FileSections) → AreShared s result }
    {
        SharedParts {
            tables: BTreeMap::new(alloc),
            headers: BTreeMap::new(alloc),
            programs: SharedPrograms::new(alloc),
        }
    }

    /// The table that is kept of a unit.
    fn kept_table(
        &self,
        header: &UnitHeader,
    ) -> std::result::Result<Option<Arc<Abbreviations>>, AllocError>
        ensures { IfOk result (λ o. option_map arc_value o ≡ table_kept self.now header.now) }
    {
        match self.tables.get(&table_key(header)) {
            Some(table) => Ok(Some(Arc::try_clone(table)?)),
            None => Ok(None),
        }
    }

    /// Keeps the table of a unit.
    fn keep_table(
        &mut self,
        sections: &Sections<'_, '_>,
        header: &UnitHeader,
        table: &Arc<Abbreviations>,
    ) -> std::result::Result<(), AllocError>
        requires shared { AreShared (sections_view sections.now) self.old }
        requires table { abbreviations (sections_view sections.now).«abbrev».bytes
            header.now.«abbrev» ≡ Some (arc_value table.now) }
        ensures { AreShared (sections_view sections.now) self.new }
    {
        let table = Arc::try_clone(table)?;
        self.tables.insert(table_key(header), table)?;
        Ok(())
    }

    /// Reads the abbreviations of a unit, and keeps them.
    fn read_and_keep(
        &mut self,
        alloc: Global,
        room: &mut Room,
        sections: &Sections<'_, '_>,
        header: &UnitHeader,
    ) -> Result<Arc<Abbreviations>>
        requires { AreShared (sections_view sections.now) self.old }
        ensures value { Gives arc_value result (or_invalid
            (abbreviations (sections_view sections.now).«abbrev».bytes header.now.«abbrev»)) }
        ensures shared { AreShared (sections_view sections.now) self.new }
    {
        let table = read_table(alloc, room, sections, header)?;
        self.keep_table(sections, header, &table)?;
        Ok(table)
    }

    /// The abbreviations of a unit, read where none are kept of their offset that are ready for its sizes.
    pub fn table(
        &mut self,
        alloc: Global,
        room: &mut Room,
        sections: &Sections<'_, '_>,
        header: &UnitHeader,
    ) -> Result<Arc<Abbreviations>>
        requires { AreShared (sections_view sections.now) self.old }
        ensures value { Gives arc_value result (or_invalid
            (abbreviations (sections_view sections.now).«abbrev».bytes header.now.«abbrev»)) }
        ensures shared { AreShared (sections_view sections.now) self.new }
    {
        let kept = self.kept_table(header)?;
        match kept {
            Some(table) => Ok(table),
            None => self.read_and_keep(alloc, room, sections, header),
        }
    }

    /// Whether the header at an offset was read with a size of addresses.
    fn has_header(&self, at: u64, address_size: u8) -> bool
        ensures { result ≡ true → get nat_cmp self.now.headers at ≡ Some address_size }
    {
        match self.headers.get(&at) {
            Some(size) => *size == address_size,
            None => false,
        }
    }

    /// Notes that there is a header at an offset.
    fn keep_header(
        &mut self,
        sections: &Sections<'_, '_>,
        at: u64,
        address_size: u8,
    ) -> std::result::Result<(), AllocError>
        requires shared { AreShared (sections_view sections.now) self.old }
        requires header { line_header (sections_view sections.now) at address_size ≡ Some tt }
        ensures { AreShared (sections_view sections.now) self.new }
    {
        self.headers.insert(at, address_size)?;
        Ok(())
    }

    /// Asks for the header of the line program at an offset, which is read where it was not. InvalidDwarf exactly where
    /// it has no value.
    pub fn check_header(
        &mut self,
        alloc: Global,
        room: &mut Room,
        sections: &Sections<'_, '_>,
        at: u64,
        address_size: u8,
    ) -> Result<()>
        requires { AreShared (sections_view sections.now) self.old }
        ensures value { Gives (λ _. tt) result
            (or_invalid (line_header (sections_view sections.now) at address_size)) }
        ensures shared { AreShared (sections_view sections.now) self.new }
    {
        if self.has_header(at, address_size) {
            return Ok(());
        }
        read_header(alloc, room, sections, at, address_size)?;
        self.keep_header(sections, at, address_size)?;
        Ok(())
    }

    /// The lines of a unit, of a program that is read where it was not; None exactly where its root tells no line program,
    /// and InvalidDwarf exactly where that, or the string of a file, has no value.
    pub fn lines<O: Orders>(
        &mut self,
        alloc: Global,
        room: &mut Room,
        orders: &mut O,
        sections: &Sections<'_, '_>,
        header: &UnitHeader,
        root: &UnitRoot,
    ) -> Result<Option<Lines>>
        requires { AreShared (sections_view sections.now) self.old }
        ensures value { Gives (λ lines. option_map (λ (l : OrderedLines). l.table) lines) result
            (lines_of sections.now header.now root.now) }
        ensures accepted { IfOk result (λ lines. IfSome lines (λ (l : OrderedLines).
            IsAccepted O.pair_places (map begin_key (spans_of l.table.sequences)) l.ordered)) }
        ensures shared { AreShared (sections_view sections.now) self.new }
    {
        self.programs
            .lines(alloc, room, orders, sections, header, root)
    }
}
