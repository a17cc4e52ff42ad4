//! Units, built where they are needed.
ghost use Rattle.std.specs.Prelude.{◌≡◌, ◌≤◌, true, IfOk};
ghost use Rattle.std.specs.List.{slice_get};
ghost use Rattle.blz_model.specs.Part.{Gives};
ghost use Rattle.blz_model.specs.Kept.{Kept, is_kept};
ghost use Rattle.blz_info.specs.Marks.{or_invalid};
ghost use Rattle.blz_units.specs.BuiltUnits.{built_view, BuiltFits, IsReadable};
ghost use Rattle.blz_units.specs.KeptParts.{is_missing, caches_of, side_sections, side_unit, IsFilled, SideFits, BuiltFit};
ghost use Rattle.blz_reader.specs.Readers.{reader_files, reader_table};
ghost use Rattle.blz_units.specs.SharedPackage.{IsPackageShared};
ghost use Rattle.blz_units.specs.Sharing.{AreShared};

use crate::filling::marks::mark_of;
use crate::reader::Reader;
use blz_bytes::Room;
use blz_entry::{UnitHeader, invalid};
use blz_error::Result;
use blz_model::Cache;
use blz_units::built_unit::BuiltUnit;
use blz_units::built_units::{BuiltUnits, Side, SideUnits, is_missing, put};
use blz_units::dwarf::Origin;
use blz_units::shared::shared_package::SharedPackage;
use blz_units::shared::shared_parts::SharedParts;
use blz_units::unit_list::UnitList;
use std::alloc::AllocError;

impl<'r, 's, 'b> Reader<'r, 's, 'b> {
    fn build(
        &self,
        room: &mut Room,
        side: Side,
        shared: &mut SharedParts,
        packed: &mut SharedPackage,
        header: &UnitHeader,
    ) -> Result<BuiltUnit>
        requires readable { IsReadable self.now.dwarf.now }
        requires ordered { header.now.entries ≤ header.now.end }
        requires shared { AreShared (side_sections (reader_files self.now) side) shared.old }
        requires packed { IsPackageShared (reader_files self.now) packed.old }
        ensures value { Gives (built_view (reader_files self.now)) result
            (or_invalid (side_unit (reader_files self.now) side header.now)) }
        ensures fits { IfOk result (BuiltFits (reader_files self.now)) }
        ensures shared { AreShared (side_sections (reader_files self.now) side) shared.new }
        ensures packed { IsPackageShared (reader_files self.now) packed.new }
    {
        match (side, &self.dwarf.sup) {
            (Side::File, _) => {
                BuiltUnit::reading(self.alloc, room, self.dwarf, shared, packed, header)
            },
            (Side::Sup, Some(_)) => {
                BuiltUnit::of_file(self.alloc, room, self.dwarf, shared, Origin::Sup, header)
            },
            (Side::Sup, None) => Err(invalid("there is no supplementary file")),
        }
    }

    /// What is kept of a unit: it as it is built, or its mark.
    fn part(
        &self,
        room: &mut Room,
        side: Side,
        shared: &mut SharedParts,
        packed: &mut SharedPackage,
        header: &UnitHeader,
    ) -> std::result::Result<Cache<BuiltUnit>, AllocError>
        requires readable { IsReadable self.now.dwarf.now }
        requires ordered { header.now.entries ≤ header.now.end }
        requires shared { AreShared (side_sections (reader_files self.now) side) shared.old }
        requires packed { IsPackageShared (reader_files self.now) packed.old }
        ensures kept { IfOk result
            (λ c. Kept (BuiltFits (reader_files self.now)) (built_view (reader_files self.now)) c
            (or_invalid (side_unit (reader_files self.now) side header.now))) }
        ensures full { IfOk result (λ c. is_kept c ≡ true) }
        ensures shared { AreShared (side_sections (reader_files self.now) side) shared.new }
        ensures packed { IsPackageShared (reader_files self.now) packed.new }
    {
        match self.build(room, side, shared, packed, header) {
            Ok(unit) => Ok(Cache::Value(unit)),
            Err(e) => Ok(Cache::Mark(mark_of(&e)?)),
        }
    }

    /// Builds a unit where nothing is kept of it.
    #[tactic(auto, using(blz_units::proofs::BuiltSteps::not_missing))]
    fn fill_one(
        &self,
        room: &mut Room,
        side: Side,
        units: &UnitList,
        built: &mut SideUnits,
        number: usize,
    ) -> std::result::Result<(), AllocError>
        requires readable { IsReadable self.now.dwarf.now }
        requires fits { SideFits (reader_files self.now) side units.now built.old }
        ensures fits { SideFits (reader_files self.now) side units.now built.new }
        ensures filled { IfOk result (λ _. IsFilled (slice_get built.new.units.items number)) }
    {
        if !is_missing(built.units.as_slice(), number) {
            return Ok(());
        }
        self.fill_missing(room, side, units, built, number)
    }

    /// Builds a unit of which nothing is kept.
    fn fill_missing(
        &self,
        room: &mut Room,
        side: Side,
        units: &UnitList,
        built: &mut SideUnits,
        number: usize,
    ) -> std::result::Result<(), AllocError>
        requires readable { IsReadable self.now.dwarf.now }
        requires fits { SideFits (reader_files self.now) side units.now built.old }
        requires missing { is_missing (slice_get built.old.units.items number) ≡ true }
        ensures fits { SideFits (reader_files self.now) side units.now built.new }
        ensures filled { IfOk result (λ _. IsFilled (slice_get built.new.units.items number)) }
    {
        let header = match units.get(number) {
            Some(header) => header,
            None => return Ok(()),
        };
        let made = self.part(room, side, &mut built.shared, &mut built.packed, &header)?;
        put(&mut built.units, number, made);
        Ok(())
    }

    /// Builds a unit of a file where nothing is kept of it.
    pub fn fill_unit(
        &self,
        room: &mut Room,
        side: Side,
        built: &mut BuiltUnits,
        number: usize,
    ) -> std::result::Result<(), AllocError>
        requires readable { IsReadable self.now.dwarf.now }
        requires fits { BuiltFit (reader_files self.now) (reader_table self.now) built.old }
        ensures fits { BuiltFit (reader_files self.now) (reader_table self.now) built.new }
        ensures filled { IfOk result
            (λ _. IsFilled (slice_get (caches_of side built.new) number)) }
    {
        match side {
            Side::File => self.fill_one(room, side, &self.table.kept, &mut built.kept, number),
            Side::Sup => self.fill_one(room, side, &self.table.sups, &mut built.sups, number),
        }
    }
}
