//! The units of a file, and the addresses that they announce.
ghost use Rattle.std.specs.Prelude.{◌≡◌, map, IfOk, Option, Some, option_map};
ghost use Rattle.blz_model.specs.Part.{Gives, Exactly};
ghost use Rattle.blz_info.specs.Contents.{section_view};
ghost use Rattle.blz_info.specs.Marks.{or_invalid};
ghost use Rattle.blz_units.specs.Announced.{announced_at};
ghost use Rattle.blz_units.specs.BuiltUnits.{files_view, IsReadable};
ghost use Rattle.blz_units.specs.KeptParts.{SideFits};
ghost use Rattle.blz_units.specs.declared.built_units.Side.TheVariants.{File};
ghost use Rattle.blz_ranges.specs.Keyed.{IsAccepted, begin_key};
ghost use Rattle.blz_ranges.specs.Owned.{items_of};
ghost use Rattle.blz_functions.specs.References.{unit_at};
ghost use Rattle.blz_units.specs.TableViews.{table_view};
ghost use Rattle.blz_units.specs.UnitTables.{sup_units, sups_checked, units_in, units_of};
ghost use Rattle.blz_info.specs.FileSections.{sections_view};

use crate::announced::address_sets::AddressSets;
use crate::announced::units_at::UnitsAt;
use crate::built_units::SideUnits;
use crate::dwarf::Dwarf;
use crate::kept_units::KeptUnits;
use crate::unit_list::UnitList;
use crate::words::HEADER_WORDS;
use blz_bytes::{Orders, Room};
use blz_entry::{Section, Sections, UnitHeaders, invalid};
use blz_error::Result;
use blz_ranges::OwnedRanges;
use std::alloc::Global;

/// The units that are kept, the ranges that they announce, each with the number of its unit, and the units of the
/// supplementary file.
#[derive(Drop)]
pub struct UnitTable {
    pub kept: UnitList,
    pub announced: OwnedRanges,
    pub sups: UnitList,
}

/// The headers of the units of a section, without type units.
fn units_in(alloc: Global, room: &mut Room, info: Section<'_, '_>) -> Result<UnitList>
    ensures { Gives (λ l. l) result (or_invalid (units_in (section_view info.entry))) }
{
    let mut headers = UnitHeaders::new(info);
    let mut units = UnitList::new(alloc);
    while let Some(header) = headers.next_header()? {
        room.take(HEADER_WORDS)?;
        units.push_but_types(header)?;
    }
    Ok(units)
}

/// The units of a supplementary file, and none without one. InvalidDwarf exactly where their headers have no value.
#[tactic(auto, unfolding(crate::specs::UnitTables::sup_units))]
fn sup_units(alloc: Global, room: &mut Room, sup: &Option<Sections<'_, '_>>) -> Result<UnitList>
    ensures { Gives (λ l. l) result (or_invalid (sup_units (option_map sections_view sup.now))) }
{
    match sup {
        Some(sections) => units_in(alloc, room, sections.info),
        None => Ok(UnitList::new(alloc)),
    }
}

/// Asks for the units of a supplementary file. InvalidDwarf exactly where their headers have no value.
pub fn check_sup_units(alloc: Global, sup: &Option<Sections<'_, '_>>) -> Result<()>
    ensures { Gives (λ _. tt) result
        (or_invalid (sups_checked (option_map sections_view sup.now))) }
{
    sup_units(alloc, &mut Room::endless(), sup)?;
    Ok(())
}

impl UnitTable {
    /// Reads the sets of address ranges and the headers of all units, and asks for an order of the announced ranges by
    /// their begins. InvalidDwarf exactly where a set or a header is not whole or not as it has to be, or the list of
    /// ranges of the root of a unit that no set names has no value. The units that had to be built for that are given too.
    #[tactic(auto, unfolding(crate::specs::UnitTables::units_of))]
    pub fn read<O: Orders>(
        alloc: Global,
        room: &mut Room,
        orders: &mut O,
        dwarf: &Dwarf<'_, '_>,
    ) -> Result<(UnitTable, SideUnits)>
        requires { IsReadable dwarf.now }
        ensures table { Gives (λ r. table_view r.0) result
            (or_invalid (units_of (files_view dwarf.now))) }
        ensures fits { IfOk result
            (λ r. SideFits (files_view dwarf.now) File (table_view r.0).kept r.1) }
        ensures accepted { IfOk result (λ r. IsAccepted O.pair_places
            (map begin_key (items_of r.0.announced.ranges)) r.0.announced.ordered) }
    {
        let sups = sup_units(alloc, room, &dwarf.sup)?;
        let sets = AddressSets::read(alloc, dwarf.main.aranges)?;
        let (units, built) = KeptUnits::read(alloc, room, dwarf, &sets)?;
        let (kept, spans, owners) = units.into_parts();
        let announced = OwnedRanges::build(alloc, orders, spans, owners)?;
        let table = UnitTable {
            kept,
            announced,
            sups,
        };
        Ok((table, built))
    }

    /// The number of the kept unit that an offset of `.debug_info` leads into, and the offset's distance from its start.
    /// InvalidDwarf exactly where no kept unit begins below the offset, one begins at it, or it does not lie among the
    /// entries of the last that begins below it.
    pub fn find_unit(&self, offset: u64) -> Result<(usize, usize)>
        ensures { Exactly (λ p. p) result
            (or_invalid (unit_at (table_view self.now).kept offset)) }
    {
        match self.kept.find(offset) {
            Some(place) => Ok(place),
            None => Err(invalid("a reference leads into no unit")),
        }
    }

    /// The same among the units of the supplementary file, but for its type units.
    pub fn find_sup_unit(&self, offset: u64) -> Result<(usize, usize)>
        ensures { Exactly (λ p. p) result
            (or_invalid (unit_at (table_view self.now).sups offset)) }
    {
        match self.sups.find(offset) {
            Some(place) => Ok(place),
            None => Err(invalid("a reference leads into no unit of the supplementary file")),
        }
    }

    /// The units that announce an address.
    pub fn find_units(&self, addr: u64) -> UnitsAt<'_>
        ensures { result ≡ announced_at (table_view self.now) self.now.announced.ordered addr }
    {
        UnitsAt::new(&self.announced, addr)
    }
}
