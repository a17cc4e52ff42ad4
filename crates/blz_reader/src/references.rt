//! References from the entries of a unit to entries of any unit.
ghost use Rattle.std.specs.Prelude.{◌≡◌, ◌+◌, Some, IfOk};
ghost use Rattle.std.specs.Bool.{OnTrue};
ghost use Rattle.std.specs.List.{slice_get};
ghost use Rattle.blz_model.specs.Part.{Gives, Exactly};
ghost use Rattle.blz_info.specs.Marks.{or_invalid};
ghost use Rattle.blz_units.specs.BuiltUnits.{built_view, files_view, BuiltFits, IsReadable};
ghost use Rattle.blz_reader.specs.Following.{unit_in, target_in, target_of, given, seen_in, numbered_seen, told_by, entry_given, step_of, name_over, own_side};
ghost use Rattle.blz_units.specs.KeptParts.{caches_of, headers_of, unit_of, IsFilled, BuiltFit};
ghost use Rattle.blz_units.specs.declared.built_units.Side.TheVariants.{File};
ghost use Rattle.blz_functions.specs.Naming.{visited};
ghost use Rattle.blz_functions.specs.Opened.{open_view, CanBeOpened};
ghost use Rattle.blz_reader.specs.Readers.{reader_files, reader_table};
ghost use Rattle.blz_units.specs.TableViews.{table_view};

use crate::reader::Reader;
use blz_bytes::Room;
use blz_entry::{AttrValue, StrPlace, invalid};
use blz_error::Result;
use blz_functions::{Links, OpenUnit, Visited, visit};
use blz_units::built_unit::BuiltUnit;
use blz_units::built_units::{BuiltUnits, Side, look};
use blz_units::dwarf::Dwarf;
use blz_units::unit_table::UnitTable;
use std::alloc::Global;
use std::marker::Model;
use std::ops::Deref;

/// How many entries a name is looked for over.
const MOST_ENTRIES: usize = 16;

/// The unit that an entry stands in.
#[derive(Clone, Copy)]
pub enum Standing {
    /// The one whose references are followed.
    Own,
    /// Another one, by its number.
    Numbered(Side, usize),
}

/// A value that refers to an entry, in the unit that it stands in.
#[derive(Clone, Copy)]
pub struct Reference {
    pub unit: Standing,
    /// The unit is one of the supplementary file.
    pub sup: bool,
    pub value: AttrValue,
}

/// What an entry tells of a name.
#[derive(Clone, Copy)]
pub struct SeenEntry {
    /// It stands in the supplementary file.
    pub sup: bool,
    pub visited: Visited,
}

/// What an entry gives that is referred to.
#[derive(Clone, Copy)]
pub enum Followed {
    /// A name, or that there is none.
    Name(Option<StrPlace>),
    /// A further reference.
    On(Reference),
}

/// The references of a unit, and the units that are built on the way.
#[derive(Drop)]
pub struct References<'u> {
    alloc: Global,
    dwarf: Dwarf<'u, 'u>,
    table: &'u UnitTable,
    /// The number of the unit.
    number: usize,
    unit: OpenUnit<'u, 'u>,
    built: BuiltUnits,
}

impl<'u> Model for References<'u> {
    ghost use Rattle.std.specs.Coded.{codes};
    ghost use Rattle.blz_reader.specs.Following.{relocations_code};
    ghost use Rattle.blz_reader.specs.Linkage.{Linked};

    ghost Value = { Linked };

    ghost coded = { Prim.hlevel (codes, relocations_code) };

    ghost use Rattle.blz_reader.specs.Linking.{linked_view, AreLinked};

    ghost view = { linked_view };

    ghost invariant = { AreLinked };
}

/// A unit that is built, under one lifetime.
pub fn open_in<'u>(unit: &'u BuiltUnit, dwarf: &Dwarf<'u, 'u>) -> OpenUnit<'u, 'u>
    requires readable { IsReadable dwarf.now }
    requires fits { BuiltFits (files_view dwarf.now) unit.now }
    ensures view { open_view result ≡ built_view (files_view dwarf.now) unit.now }
    ensures opened { CanBeOpened result }
{
    OpenUnit {
        sections: dwarf.whole_sections(&unit.origin),
        header: unit.header,
        abbreviations: unit.abbreviations.deref(),
        root: unit.root,
    }
}

/// The file whose offsets the references of a unit of a file count.
fn own_side(sup: bool) -> Side
    ensures { result ≡ own_side sup }
{
    if sup { Side::Sup } else { Side::File }
}

/// What an entry tells of a name, by its distance from the start of its unit.
#[tactic(auto, unfolding(blz_functions::specs::Naming::visited))]
fn visit_at(room: &mut Room, unit: &OpenUnit<'_, '_>, distance: u64) -> Result<Visited>
    requires { CanBeOpened unit.now }
    ensures { Gives (λ v. v) result
        (or_invalid (visited (open_view unit.now) (unit.now.header.start + distance))) }
{
    let end = unit.header.end;
    let Some(place) = unit.header.start.checked_add(distance as usize) else {
        return Err(invalid("a reference leads past the entries of a unit"));
    };
    if place > end {
        return Err(invalid("a reference leads past the entries of a unit"));
    }
    visit(room, unit, place)
}

/// What an entry gives by what it tells.
fn given(unit: Standing, sup: bool, visited: Visited) -> Followed
    ensures { result ≡ given unit sup visited }
{
    match visited {
        Visited::Named(name) => Followed::Name(Some(name)),
        Visited::Nameless => Followed::Name(None),
        Visited::Leads(value) => Followed::On(Reference { unit, sup, value }),
    }
}

/// What the entry at a distance from the start of a unit tells of a name.
fn seen_in(room: &mut Room, unit: &OpenUnit<'_, '_>, distance: u64) -> Result<SeenEntry>
    requires { CanBeOpened unit.now }
    ensures { Gives (λ e. e) result (or_invalid (seen_in distance (open_view unit.now))) }
{
    let visited = visit_at(room, unit, distance)?;
    Ok(SeenEntry {
        sup: unit.sections.sup,
        visited,
    })
}

/// A unit that is kept, with the sections that it was built from.
fn look_at<'u, 'b>(
    reader: &Reader<'u, '_, 'b>,
    side: Side,
    built: &'u BuiltUnits,
    number: usize,
) -> Result<OpenUnit<'u, 'b>>
    requires readable { IsReadable reader.now.dwarf.now }
    requires fits { BuiltFit (reader_files reader.now) (reader_table reader.now) built.now }
    requires filled { IsFilled (slice_get (caches_of side built.now) number) }
    ensures value { Exactly open_view result (or_invalid (unit_of (reader_files reader.now) side
        (headers_of side (reader_table reader.now)) number)) }
    ensures opened { IfOk result CanBeOpened }
{
    let (dwarf, table) = (reader.dwarf, reader.table);
    match side {
        Side::File => look(dwarf, side, &table.kept, &built.kept.units, number),
        Side::Sup => look(dwarf, side, &table.sups, &built.sups.units, number),
    }
}

/// What an entry of a unit tells that is built where it is not yet; the place is its file, its number and the distance.
fn filled_and_seen(
    alloc: Global,
    room: &mut Room,
    dwarf: &Dwarf<'_, '_>,
    table: &UnitTable,
    built: &mut BuiltUnits,
    place: (Side, usize, u64),
) -> Result<SeenEntry>
    requires readable { IsReadable dwarf.now }
    requires fits { BuiltFit (files_view dwarf.now) (table_view table.now) built.old }
    ensures value { Gives (λ e. e) result (or_invalid (numbered_seen (files_view dwarf.now)
        (table_view table.now) place.0 place.1 place.2)) }
    ensures fits { BuiltFit (files_view dwarf.now) (table_view table.now) built.new }
{
    let (side, number, distance) = place;
    let reader = Reader {
        alloc,
        dwarf,
        table,
    };
    reader.fill_unit(room, side, built, number)?;
    let unit = look_at(&reader, side, &*built, number)?;
    seen_in(room, &unit, distance)
}

impl<'u> References<'u> {
    /// The references of a unit that is built, by its number, among other units that are.
    pub fn new(
        alloc: Global,
        dwarf: Dwarf<'u, 'u>,
        table: &'u UnitTable,
        number: usize,
        unit: OpenUnit<'u, 'u>,
        built: BuiltUnits,
    ) -> References<'u>
        requires readable { IsReadable dwarf }
        requires opened { CanBeOpened unit }
        requires is { unit_of (files_view dwarf) File (table_view table.now).kept number
            ≡ Some (open_view unit) }
        requires fits { BuiltFit (files_view dwarf) (table_view table.now) built }
        ensures { result ≡ record { files = files_view dwarf.entry; table = table_view table.now; unit = open_view unit.entry } }
    {
        References {
            alloc,
            dwarf,
            table,
            number,
            unit,
            built,
        }
    }

    /// The units that are built now.
    pub fn into_built(self) -> BuiltUnits
        ensures { BuiltFit self.entry.files self.entry.table result }
    {
        self.built
    }

    fn target_in(&self, side: Side, offset: u64) -> Result<Option<(Standing, u64)>>
        ensures { Exactly (λ t. t) result (or_invalid (target_in self.now side offset)) }
    {
        let found = match side {
            Side::File => self.table.kept.find(offset),
            Side::Sup => self.table.sups.find(offset),
        };
        match found {
            Some((number, distance)) => {
                Ok(Some((Standing::Numbered(side, number), distance as u64)))
            },
            None => Err(invalid("a reference leads to no unit")),
        }
    }

    /// The entry that a reference leads to, where it leads to one.
    fn target(&self, reference: &Reference) -> Result<Option<(Standing, u64)>>
        ensures { Exactly (λ t. t) result (or_invalid (target_of self.now reference.now)) }
    {
        match reference.value {
            AttrValue::UnitRef(distance) => Ok(Some((reference.unit, distance))),
            AttrValue::InfoRef(offset) => self.target_in(own_side(reference.sup), offset),
            AttrValue::SupRef(offset) => {
                if reference.sup || self.dwarf.sup.is_none() {
                    return Ok(None);
                }
                self.target_in(Side::Sup, offset)
            },
            _ => Ok(None),
        }
    }

    /// The file and the number of the unit that an entry stands in.
    fn number_of(&self, standing: Standing) -> (Side, usize)
        ensures { unit_of self.now.files result.0 (headers_of result.0 self.now.table) result.1
            ≡ unit_in self.now standing }
    {
        match standing {
            Standing::Own => (Side::File, self.number),
            Standing::Numbered(side, number) => (side, number),
        }
    }

    /// Whether an entry stands in the unit itself, which is not among those that are built meanwhile.
    fn is_own(&self, standing: Standing) -> bool
        ensures { OnTrue result (unit_in self.now standing ≡ Some self.now.unit) }
    {
        match standing {
            Standing::Own => true,
            Standing::Numbered(Side::File, number) => number == self.number,
            Standing::Numbered(Side::Sup, _) => false,
        }
    }

    /// What an entry tells.
    #[tactic(auto, unfolding(crate::specs::Following::told_by))]
    fn told_by(&mut self, room: &mut Room, standing: Standing, distance: u64) -> Result<SeenEntry>
        ensures value { Gives (λ e. e) result (or_invalid (told_by self.old standing distance)) }
        ensures same { self.new ≡ self.old }
    {
        if self.is_own(standing) {
            return seen_in(room, &self.unit, distance);
        }
        let (side, number) = self.number_of(standing);
        let (alloc, table) = (self.alloc, self.table);
        let place = (side, number, distance);
        filled_and_seen(alloc, room, &self.dwarf, table, &mut self.built, place)
    }

    /// What an entry gives.
    #[tactic(auto, unfolding(crate::specs::Following::entry_given))]
    fn entry_given(
        &mut self,
        room: &mut Room,
        standing: Standing,
        distance: u64,
    ) -> Result<Followed>
        ensures value { Gives (λ f. f) result
            (or_invalid (entry_given self.old standing distance)) }
        ensures same { self.new ≡ self.old }
    {
        match self.told_by(room, standing, distance) {
            Ok(entry) => Ok(given(standing, entry.sup, entry.visited)),
            Err(fault) => Err(fault),
        }
    }

    #[tactic(auto, unfolding(crate::specs::Following::step_of))]
    fn step(&mut self, room: &mut Room, reference: &Reference) -> Result<Followed>
        ensures value { Gives (λ f. f) result (or_invalid (step_of self.old reference.now)) }
        ensures same { self.new ≡ self.old }
    {
        match self.target(reference)? {
            Some((standing, distance)) => self.entry_given(room, standing, distance),
            None => Ok(Followed::Name(None)),
        }
    }

    fn name_of(&mut self, room: &mut Room, first: Reference) -> Result<Option<StrPlace>>
        ensures value { Gives (λ n. n) result (or_invalid (name_over 16 self.old first)) }
        ensures same { self.new ≡ self.old }
    {
        let mut reference = first;
        for _ in 0..MOST_ENTRIES {
            match self.step(room, &reference) {
                Ok(Followed::Name(name)) => return Ok(name),
                Ok(Followed::On(next)) => reference = next,
                Err(fault) => return Err(fault),
            }
        }
        Ok(None)
    }

    fn is_sup(&self) -> bool
        ensures { result ≡ self.now.unit.sections.sup }
    {
        self.unit.sections.sup
    }
}

impl<'u> Links for References<'u> {
    ghost use Rattle.blz_reader.specs.Linkage.{Linked, refer_in};

    ghost Among = { Linked };

    ghost linkage = { λ r. r };

    ghost refer = { refer_in };

    fn follow(&mut self, room: &mut Room, value: AttrValue) -> Result<Option<StrPlace>> {
        let sup = self.is_sup();
        let first = Reference {
            unit: Standing::Own,
            sup,
            value,
        };
        self.name_of(room, first)
    }
}
