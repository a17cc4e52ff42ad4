//! The parts of a unit, as they are read.
ghost use Rattle.std.specs.Prelude.{◌≡◌, ◌≤◌, Some, IfOk};
ghost use Rattle.std.specs.List.{slice_get};
ghost use Rattle.blz_model.specs.Part.{Gives};
ghost use Rattle.blz_info.specs.Marks.{or_invalid};
ghost use Rattle.blz_units.specs.BuiltUnits.{built, root_in, BuiltFits, IsReadable};
ghost use Rattle.blz_reader.specs.Growing.{LinesOrdered};
ghost use Rattle.blz_units.specs.KeptParts.{lines_view, unit_root, IsBuilt, IsFilled};
ghost use Rattle.blz_reader.specs.Readers.{BuiltFor, as_read, as_seen, reader_files};
ghost use Rattle.blz_units.specs.Sharing.{AreShared};
ghost use Rattle.blz_units.specs.UnitAnswers.{read_unit, lists_in, calls_in, place_calls, unit_functions, unit_lines};

use crate::lent::lent;
use crate::reader::Reader;
use crate::references::{References, open_in};
use blz_bytes::{Orders, Room};
use blz_entry::{UnitHeader, UnitRoot, invalid};
use blz_error::{Error, Result, Str};
use blz_functions::{CallLists, FunctionLists};
use blz_line::Lines;
use blz_model::Cache;
use blz_units::built_unit::{BuiltUnit, may_be_split};
use blz_units::built_units::{BuiltUnits, Side, SideUnits, look, put, take};
use blz_units::dwarf::Origin;
use blz_units::shared::shared_parts::SharedParts;
use std::mem;

impl<'r, 's, 'b> Reader<'r, 's, 'b> {
    /// Takes a unit, or its mark, out of those that are built.
    fn take_built(&self, built: &mut BuiltUnits, number: usize) -> Cache<BuiltUnit>
        requires fits { BuiltFor self.now built.old }
        requires filled { IsFilled (slice_get built.old.kept.units.items number) }
        ensures fits { BuiltFor self.now built.new }
        ensures taken { IsBuilt (reader_files self.now) result
            (as_read self.now read_unit number) }
    {
        take(&mut built.kept.units, number)
    }

    /// Puts a unit, or its mark, back among those that are built.
    fn put_unit(&self, built: &mut BuiltUnits, number: usize, unit: Cache<BuiltUnit>)
        requires fits { BuiltFor self.now built.old }
        requires unit { IsBuilt (reader_files self.now) unit (as_read self.now read_unit number) }
        ensures { BuiltFor self.now built.new }
    {
        put(&mut built.kept.units, number, unit);
    }

    /// Takes a unit out of those that are built, where it is built; a mark stays among them.
    fn take_unit(&self, room: &mut Room, built: &mut BuiltUnits, number: usize) -> Result<BuiltUnit>
        requires readable { IsReadable self.now.dwarf.now }
        requires fits { BuiltFor self.now built.old }
        ensures value { Gives (as_seen self.now) result
            (or_invalid (as_read self.now read_unit number)) }
        ensures right { IfOk result (BuiltFits (reader_files self.now)) }
        ensures fits { BuiltFor self.now built.new }
    {
        self.fill_unit(room, Side::File, built, number)?;
        match self.take_built(built, number) {
            Cache::Value(unit) => Ok(unit),
            Cache::Mark(kind) => {
                self.put_unit(built, number, Cache::Mark(kind));
                Err(Error::new(kind, Str::fixed("unit")))
            },
            Cache::Empty => Err(invalid("a unit has no such number")),
        }
    }

    /// No units; takes no memory.
    fn no_units(&self) -> BuiltUnits {
        BuiltUnits {
            kept: SideUnits::new(self.alloc),
            sups: SideUnits::new(self.alloc),
        }
    }

    /// The functions of a unit that is built, which is none of those that are kept meanwhile.
    fn functions_of(
        &self,
        room: &mut Room,
        built: &mut BuiltUnits,
        number: usize,
        unit: &BuiltUnit,
    ) -> Result<FunctionLists>
        requires readable { IsReadable self.now.dwarf.now }
        requires fits { BuiltFor self.now built.old }
        requires unit { BuiltFits (reader_files self.now) unit.now }
        requires is { as_read self.now read_unit number ≡ Some (as_seen self.now unit.now) }
        ensures value { Gives (λ l. l) result
            (or_invalid (as_read self.now lists_in (as_seen self.now unit.now))) }
        ensures fits { BuiltFor self.now built.new }
    {
        let dwarf = lent(&*self.dwarf);
        let open = open_in(&*unit, &dwarf);
        let others = mem::replace(built, self.no_units());
        let mut links = References::new(self.alloc, dwarf, &*self.table, number, open, others);
        let lists = FunctionLists::read(self.alloc, room, &open, &mut links);
        *built = links.into_built();
        lists
    }

    /// The calls of the function at a place of such a unit.
    fn calls_of(
        &self,
        room: &mut Room,
        built: &mut BuiltUnits,
        number: usize,
        unit: &BuiltUnit,
        place: usize,
    ) -> Result<CallLists>
        requires readable { IsReadable self.now.dwarf.now }
        requires fits { BuiltFor self.now built.old }
        requires unit { BuiltFits (reader_files self.now) unit.now }
        requires is { as_read self.now read_unit number ≡ Some (as_seen self.now unit.now) }
        ensures value { Gives (λ l. l) result
            (or_invalid (as_read self.now calls_in place (as_seen self.now unit.now))) }
        ensures fits { BuiltFor self.now built.new }
    {
        let dwarf = lent(&*self.dwarf);
        let open = open_in(&*unit, &dwarf);
        let others = mem::replace(built, self.no_units());
        let mut links = References::new(self.alloc, dwarf, &*self.table, number, open, others);
        let lists = CallLists::read(self.alloc, room, &open, &mut links, place);
        *built = links.into_built();
        lists
    }

    /// The functions of a kept unit.
    #[tactic(auto, unfolding(blz_units::specs::UnitAnswers::unit_functions))]
    pub fn read_functions(
        &self,
        room: &mut Room,
        built: &mut BuiltUnits,
        number: usize,
    ) -> Result<FunctionLists>
        requires readable { IsReadable self.now.dwarf.now }
        requires fits { BuiltFor self.now built.old }
        ensures value { Gives (λ l. l) result
            (or_invalid (as_read self.now unit_functions number)) }
        ensures fits { BuiltFor self.now built.new }
    {
        let unit = self.take_unit(room, built, number)?;
        let lists = self.functions_of(room, built, number, &unit);
        self.put_unit(built, number, Cache::Value(unit));
        lists
    }

    /// The calls of the function at a place of a kept unit.
    #[tactic(auto, unfolding(blz_units::specs::UnitAnswers::place_calls))]
    pub fn read_calls(
        &self,
        room: &mut Room,
        built: &mut BuiltUnits,
        number: usize,
        place: usize,
    ) -> Result<CallLists>
        requires readable { IsReadable self.now.dwarf.now }
        requires fits { BuiltFor self.now built.old }
        ensures value { Gives (λ l. l) result
            (or_invalid (as_read self.now place_calls number place)) }
        ensures fits { BuiltFor self.now built.new }
    {
        let unit = self.take_unit(room, built, number)?;
        let lists = self.calls_of(room, built, number, &unit, place);
        self.put_unit(built, number, Cache::Value(unit));
        lists
    }

    /// The root of a unit itself, which is not the one that its functions are read from.
    fn own_root(
        &self,
        room: &mut Room,
        shared: &mut SharedParts,
        header: &UnitHeader,
    ) -> Result<UnitRoot>
        requires readable { IsReadable self.now.dwarf.now }
        requires ordered { header.now.entries ≤ header.now.end }
        requires shared { AreShared (reader_files self.now).main shared.old }
        ensures value { Gives (λ r. r) result
            (or_invalid (root_in (reader_files self.now) header.now)) }
        ensures shared { AreShared (reader_files self.now).main shared.new }
    {
        let unit = BuiltUnit::of_file(self.alloc, room, self.dwarf, shared, Origin::Main, header)?;
        Ok(unit.root)
    }

    /// The root of a kept unit itself.
    #[tactic(auto, using(blz_units::proofs::BuiltSteps::shared_again), unfolding(blz_units::specs::UnitAnswers::main_unit))]
    pub fn read_root(
        &self,
        room: &mut Room,
        built: &mut BuiltUnits,
        number: usize,
    ) -> Result<UnitRoot>
        requires readable { IsReadable self.now.dwarf.now }
        requires fits { BuiltFor self.now built.old }
        ensures value { Gives (λ r. r) result (or_invalid (as_read self.now unit_root number)) }
        ensures fits { BuiltFor self.now built.new }
    {
        let Some(header) = self.table.kept.get(number) else {
            return Err(invalid("a unit has no such number"));
        };
        if may_be_split(self.dwarf, &header) {
            return self.own_root(room, &mut built.kept.shared, &header);
        }
        self.fill_unit(room, Side::File, built, number)?;
        let unit = look(
            self.dwarf,
            Side::File,
            &self.table.kept,
            &built.kept.units,
            number,
        )?;
        Ok(unit.root)
    }

    /// The lines of a kept unit, whose root is this.
    #[tactic(auto, using(blz_units::proofs::BuiltSteps::shared_again))]
    pub fn read_lines<O: Orders>(
        &self,
        room: &mut Room,
        orders: &mut O,
        built: &mut BuiltUnits,
        number: usize,
        root: &UnitRoot,
    ) -> Result<Option<Lines>>
        requires root { as_read self.now unit_root number ≡ Some root.now }
        requires fits { BuiltFor self.now built.old }
        ensures value { Gives lines_view result (or_invalid (as_read self.now unit_lines number)) }
        ensures ordered { IfOk result (LinesOrdered O.pair_places) }
        ensures fits { BuiltFor self.now built.new }
    {
        let (alloc, sections) = (self.alloc, &self.dwarf.main);
        let shared = &mut built.kept.shared;
        match self.table.kept.get(number) {
            Some(header) => shared.lines(alloc, room, orders, sections, &header, root),
            None => Err(invalid("a unit has no such number")),
        }
    }
}
