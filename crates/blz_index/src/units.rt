//! The units of a file, as they are asked.
ghost use Rattle.std.specs.Prelude.{◌≡◌, ◌<◌, true, length, IfOk, IfSome, IfErr};
ghost use Rattle.std.specs.Option.{option_map};
ghost use Rattle.blz_error.specs.declared.kind.ErrorKind.TheVariants.{OutOfMemory};
ghost use Rattle.blz_model.specs.Part.{Gives};
ghost use Rattle.blz_info.specs.Marks.{or_invalid};
ghost use Rattle.blz_line.specs.Lookups.{location_view};
ghost use Rattle.blz_units.specs.BuiltUnits.{files_view, IsReadable};
ghost use Rattle.blz_reader.specs.Growing.{Told};
ghost use Rattle.blz_units.specs.UnitAnswers.{unit_language, function_at};
ghost use Rattle.blz_units.specs.UnitSites.{location_at, inlined_at};
ghost use Rattle.blz_units.specs.UnitTables.{units_of};
ghost use Rattle.blz_index.specs.UnitsWarm.{AnnouncedOrdered, as_read, units_table, units_prepared, functions_kept, kept_function, CanBeAsked, Leaves, UnitsFit, UnitsGrow, AreCold};

mod find;
mod lend;
mod listing;

use crate::cold::cold_caches;
use blz_bytes::{Orders, Room};
use blz_error::{Error, ErrorKind, Result};
use blz_functions::Function;
use blz_line::Location;
use blz_model::SrcLang;
use blz_reader::reader::Reader;
use blz_reader::sites::InlinedSites;
use blz_units::caches::Caches;
use blz_units::dwarf::Dwarf;
use blz_units::look;
use blz_units::unit_table::UnitTable;
use std::alloc::{AllocError, Global};
use std::marker::Brand;
use std::sync::ledger::Blank;

/// The units of a file, each known by its number. What was read of them is kept, as places and numbers. What may be read
/// and kept is bounded by the sizes of the file's sections: past that, a call answers that there is no memory.
pub struct Units {
    pub(crate) table: UnitTable,
    pub(crate) caches: Caches,
    pub(crate) prepared: bool,
}

// Written out, so that letting go of one is a call, which is proved once, and not a walk through it at each place.
impl Drop for Units {
    fn drop(self) {
        let Units {
            table: _,
            caches: _,
            prepared: _,
        } = self;
    }
}

// An error of a part that was read within the file's room, which says so where it is the room that had no more.
fn of_room(room: &Room, fault: Error) -> Error
    ensures { result.kind ≡ fault.kind }
{
    match fault.kind() {
        ErrorKind::OutOfMemory => room.want(),
        _ => fault,
    }
}

impl Units {
    /// Reads the headers of the units and the ranges that they announce, and nothing else of them. InvalidDwarf exactly
    /// where those have no value.
    pub fn parse<O: Orders>(alloc: Global, orders: &mut O, dwarf: &Dwarf<'_, '_>) -> Result<Units>
        requires readable { IsReadable dwarf.now }
        ensures value { Gives units_table result (or_invalid (units_of (files_view dwarf.now))) }
        ensures fits { IfOk result (UnitsFit (files_view dwarf.now)) }
        ensures accepted { IfOk result (AnnouncedOrdered O.pair_places) }
        ensures cold { IfOk result AreCold }
    {
        let mut room = Room::of(dwarf.size());
        let (table, built) = match UnitTable::read(alloc, &mut room, orders, dwarf) {
            Ok(read) => read,
            Err(fault) => return Err(of_room(&room, fault)),
        };
        let caches = cold_caches(alloc, room, built, table.kept.len(), table.sups.len())?;
        Ok(Units {
            table,
            caches,
            prepared: false,
        })
    }

    /// How many units are kept.
    pub fn len(&self) -> usize
        ensures { result ≡ length (units_table self.now).kept }
    {
        self.table.kept.len()
    }

    /// The language of a unit, which stands in the unit itself also where its functions stand in a package. InvalidDwarf
    /// exactly where the unit cannot be built.
    pub fn language(&mut self, alloc: Global, dwarf: &Dwarf<'_, '_>, unit: usize) -> Result<SrcLang>
        requires asked { CanBeAsked dwarf.now self.old }
        requires there { unit < length (units_table self.old).kept }
        ensures value { Gives (λ l. l) result
            (or_invalid (as_read dwarf.now self.old unit_language unit)) }
        ensures leaves { (told : Told) → Leaves told dwarf.now self.old self.new }
    {
        let reader = Reader {
            alloc,
            dwarf,
            table: &self.table,
        };
        reader.language(&mut self.caches, unit)
    }

    /// The function of an address, by the numbers of its unit and of the function there: of the units that announce the
    /// address, greatest begin first, the first whose best range covers it. InvalidDwarf exactly where the functions of a
    /// unit that is asked have no value.
    pub fn find_function<O: Orders>(
        &mut self,
        alloc: Global,
        orders: &mut O,
        dwarf: &Dwarf<'_, '_>,
        addr: u64,
    ) -> Result<Option<(usize, usize)>>
        requires asked { CanBeAsked dwarf.now self.old }
        ensures value { Gives (λ r. r) result
            (or_invalid (as_read dwarf.now self.old function_at addr)) }
        ensures there { IfOk result (λ r. IfSome r (λ r. functions_kept self.new r.0 ≡ true)) }
        ensures leaves { Leaves O.pair_places dwarf.now self.old self.new }
    {
        let reader = Reader {
            alloc,
            dwarf,
            table: &self.table,
        };
        reader.find_function::<O, Brand>(orders, &mut self.caches, addr, Blank::new(1))
    }

    /// The place of an address in the sources: of the units that announce the address, greatest begin first, the first
    /// that has a row for it. InvalidDwarf exactly where the lines of a unit that is asked have no value, or the row's
    /// file is not in its table.
    pub fn find_location<'b, O: Orders>(
        &mut self,
        alloc: Global,
        orders: &mut O,
        dwarf: &Dwarf<'_, 'b>,
        addr: u64,
    ) -> Result<Option<Location<'b>>>
        requires asked { CanBeAsked dwarf.now self.old }
        ensures value { Gives (λ o. option_map location_view o) result
            (as_read dwarf.now self.old (location_at dwarf.now.texts) addr) }
        ensures leaves { Leaves O.pair_places dwarf.now self.old self.new }
    {
        let reader = Reader {
            alloc,
            dwarf,
            table: &self.table,
        };
        reader.find_location::<O, Brand>(orders, &mut self.caches, addr, Blank::new(1))
    }

    /// The inlined calls of a function of a unit that cover an address, the outermost first, each with its name and the
    /// place that it was called from. InvalidDwarf exactly where the calls of the function have no value, one of the
    /// names is not UTF-8, or a call has a file and the lines of the unit have no value.
    pub fn find_inlined_functions<'b, O: Orders>(
        &mut self,
        alloc: Global,
        orders: &mut O,
        dwarf: &Dwarf<'_, 'b>,
        addr: u64,
        unit: usize,
        function: usize,
    ) -> Result<InlinedSites<'b>>
        requires asked { CanBeAsked dwarf.now self.old }
        requires there { unit < length (units_table self.old).kept }
        ensures value { Gives (λ s. s) result
            (as_read dwarf.now self.old (inlined_at dwarf.now.texts) addr unit function) }
        ensures leaves { Leaves O.pair_places dwarf.now self.old self.new }
    {
        let reader = Reader {
            alloc,
            dwarf,
            table: &self.table,
        };
        reader.find_inlined(orders, &mut self.caches, unit, function, addr)
    }

    /// A function of a unit by its number; Some exactly where the functions of the unit are kept, and the number is among
    /// them.
    pub fn function(&self, unit: usize, function: usize) -> Option<&Function>
        ensures { option_map (λ f. f.now) result ≡ kept_function self.now unit function }
    {
        match look::functions_of(self.caches.units.as_slice(), unit) {
            Ok(functions) => functions.functions().get(function),
            Err(_) => None,
        }
    }

    /// Puts each part of each unit into its cache, as its value or its mark's kind, for the prepared calls. Only want of
    /// memory is refused.
    pub fn prepare<O: Orders>(
        &mut self,
        alloc: Global,
        orders: &mut O,
        dwarf: &Dwarf<'_, '_>,
    ) -> std::result::Result<(), AllocError>
        requires asked { CanBeAsked dwarf.now self.old }
        ensures prepared { IfOk result (λ _. units_prepared self.new ≡ true) }
        ensures refused { IfErr result (λ _. units_prepared self.new ≡ units_prepared self.old) }
        ensures fits { UnitsFit (files_view dwarf.now) self.new }
        ensures grows { UnitsGrow O.pair_places self.old self.new }
    {
        let reader = Reader {
            alloc,
            dwarf,
            table: &self.table,
        };
        let Ok(()) = reader.fill_all(orders, &mut self.caches) else {
            return Err(AllocError);
        };
        self.prepared = true;
        Ok(())
    }

    /// The error for want of memory, which says so where it is the file's room that had no more.
    pub fn want(&self) -> Error
        ensures { result.kind ≡ OutOfMemory }
    {
        self.caches.room.want()
    }

    /// Whether `prepare` has filled each cache.
    pub fn is_prepared(&self) -> bool
        ensures { result ≡ units_prepared self.now }
    {
        self.prepared
    }
}
