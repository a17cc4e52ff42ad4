//! The parts of units, kept when they are first asked for.
ghost use Rattle.std.specs.Prelude.{◌≡◌, true, false, IfErr, IfOk};
ghost use Rattle.blz_error.specs.declared.kind.ErrorKind.TheVariants.{OutOfMemory};
ghost use Rattle.std.specs.List.{slice_get};
ghost use Rattle.blz_model.specs.Part.{Gives};
ghost use Rattle.blz_info.specs.Marks.{or_invalid};
ghost use Rattle.blz_units.specs.BuiltUnits.{IsReadable};
ghost use Rattle.blz_reader.specs.Filling.{AreCallsOf, AreFunctionsOf, AreLinesOf, CanBeFilled, Fills, HasCallsOf, HasPart, IsRootOf};
ghost use Rattle.blz_reader.specs.Growing.{Told};
ghost use Rattle.blz_units.specs.KeptParts.{lacks_root, lacks_functions, lacks_lines, lacks_calls};
ghost use Rattle.blz_reader.specs.Readers.{BuiltFor, PartsFor, as_read};
ghost use Rattle.blz_units.specs.UnitAnswers.{function_calls};

use crate::filling::marks::mark_of;
use crate::filling::puts::{put_calls, put_functions, put_lines, put_root};
use crate::reader::Reader;
use blz_bytes::{Orders, Room};
use blz_entry::UnitRoot;
use blz_functions::{CallLists, Functions, InlinedFunctions};
use blz_line::Lines;
use blz_model::Cache;
use blz_units::built_units::BuiltUnits;
use blz_units::caches::{
    Caches, UnitCaches, lacks_calls, lacks_functions, lacks_lines, lacks_root,
};
use blz_units::look::{function_place, root_of};
use std::alloc::AllocError;

impl<'r, 's, 'b> Reader<'r, 's, 'b> {
    /// What is kept of the root of a unit itself.
    fn root_part(
        &self,
        room: &mut Room,
        built: &mut BuiltUnits,
        number: usize,
    ) -> Result<Cache<UnitRoot>, AllocError>
        requires readable { IsReadable self.now.dwarf.now }
        requires fits { BuiltFor self.now built.old }
        ensures read { IfOk result (IsRootOf self.now number) }
        ensures fits { BuiltFor self.now built.new }
    {
        match self.read_root(room, built, number) {
            Ok(root) => Ok(Cache::Value(root)),
            Err(e) => Ok(Cache::Mark(mark_of(&e)?)),
        }
    }

    /// Reads the root of a unit itself where it is not kept.
    #[tactic(auto, using(crate::proofs::CacheSteps::fills_same))]
    pub fn fill_root(&self, caches: &mut Caches, number: usize) -> blz_error::Result<()>
        requires fillable { CanBeFilled self.now caches.old }
        ensures filled { IfOk result (λ _. HasPart lacks_root caches.new number) }
        ensures want { IfErr result (λ e. e.kind ≡ OutOfMemory) }
        ensures fills { (told : Told) → Fills told self.now caches.old caches.new }
    {
        if !lacks_root(caches.units.as_slice(), number) {
            return Ok(());
        }
        match self.put_root_of(caches, number) {
            Ok(()) => Ok(()),
            Err(_) => Err(caches.room.want()),
        }
    }

    /// Puts the root of a unit itself, which lacks it.
    #[tactic(auto, using(crate::proofs::CacheSteps::fills_same))]
    fn put_root_of(&self, caches: &mut Caches, number: usize) -> Result<(), AllocError>
        requires fillable { CanBeFilled self.now caches.old }
        requires lacks { lacks_root (slice_get caches.old.units.items number) ≡ true }
        ensures filled { IfOk result (λ _. HasPart lacks_root caches.new number) }
        ensures fills { (told : Told) → Fills told self.now caches.old caches.new }
    {
        let root = self.root_part(&mut caches.room, &mut caches.built, number)?;
        put_root(&mut caches.units, number, root);
        Ok(())
    }

    /// What is kept of the functions of a unit.
    fn functions_part<O: Orders>(
        &self,
        room: &mut Room,
        orders: &mut O,
        built: &mut BuiltUnits,
        number: usize,
    ) -> Result<Cache<Functions>, AllocError>
        requires readable { IsReadable self.now.dwarf.now }
        requires fits { BuiltFor self.now built.old }
        ensures read { IfOk result (AreFunctionsOf O.pair_places self.now number) }
        ensures fits { BuiltFor self.now built.new }
    {
        match self.read_functions(room, built, number) {
            Ok(lists) => {
                let functions = lists.indexed(self.alloc, orders)?;
                Ok(Cache::Value(functions))
            },
            Err(e) => Ok(Cache::Mark(mark_of(&e)?)),
        }
    }

    /// Reads the functions of a unit where they are not kept.
    #[tactic(auto, using(crate::proofs::CacheSteps::fills_same))]
    pub fn fill_functions<O: Orders>(
        &self,
        orders: &mut O,
        caches: &mut Caches,
        number: usize,
    ) -> blz_error::Result<()>
        requires fillable { CanBeFilled self.now caches.old }
        ensures filled { IfOk result (λ _. HasPart lacks_functions caches.new number) }
        ensures want { IfErr result (λ e. e.kind ≡ OutOfMemory) }
        ensures fills { Fills O.pair_places self.now caches.old caches.new }
    {
        if !lacks_functions(caches.units.as_slice(), number) {
            return Ok(());
        }
        match self.put_functions_of(orders, caches, number) {
            Ok(()) => Ok(()),
            Err(_) => Err(caches.room.want()),
        }
    }

    /// Puts the functions of a unit that lacks them.
    #[tactic(auto, using(crate::proofs::CacheSteps::fills_same))]
    fn put_functions_of<O: Orders>(
        &self,
        orders: &mut O,
        caches: &mut Caches,
        number: usize,
    ) -> Result<(), AllocError>
        requires fillable { CanBeFilled self.now caches.old }
        requires lacks { lacks_functions (slice_get caches.old.units.items number) ≡ true }
        ensures filled { IfOk result (λ _. HasPart lacks_functions caches.new number) }
        ensures fills { Fills O.pair_places self.now caches.old caches.new }
    {
        let functions = self.functions_part(&mut caches.room, orders, &mut caches.built, number)?;
        put_functions(&mut caches.units, number, functions);
        Ok(())
    }

    /// What is kept of the lines of a unit, whose root is kept.
    fn lines_part<O: Orders>(
        &self,
        room: &mut Room,
        orders: &mut O,
        built: &mut BuiltUnits,
        units: &[UnitCaches],
        number: usize,
    ) -> Result<Cache<Option<Lines>>, AllocError>
        requires built { BuiltFor self.now built.old }
        requires fits { PartsFor self.now units.now }
        requires filled { lacks_root (slice_get units.now number) ≡ false }
        ensures read { IfOk result (AreLinesOf O.pair_places self.now number) }
        ensures built { BuiltFor self.now built.new }
    {
        let root = match root_of(units, number) {
            Ok(root) => root,
            Err(e) => return Ok(Cache::Mark(e.kind())),
        };
        match self.read_lines(room, orders, built, number, &root) {
            Ok(lines) => Ok(Cache::Value(lines)),
            Err(e) => Ok(Cache::Mark(mark_of(&e)?)),
        }
    }

    /// Reads the lines of a unit where they are not kept.
    #[tactic(auto, using(crate::proofs::CacheSteps::fills_same))]
    pub fn fill_lines<O: Orders>(
        &self,
        orders: &mut O,
        caches: &mut Caches,
        number: usize,
    ) -> blz_error::Result<()>
        requires fillable { CanBeFilled self.now caches.old }
        ensures filled { IfOk result (λ _. HasPart lacks_lines caches.new number) }
        ensures want { IfErr result (λ e. e.kind ≡ OutOfMemory) }
        ensures fills { Fills O.pair_places self.now caches.old caches.new }
    {
        self.fill_root(caches, number)?;
        if !lacks_lines(caches.units.as_slice(), number) {
            return Ok(());
        }
        match self.put_lines_of(orders, caches, number) {
            Ok(()) => Ok(()),
            Err(_) => Err(caches.room.want()),
        }
    }

    /// Puts the lines of a unit that lacks them, whose root is kept.
    #[tactic(auto, using(crate::proofs::CacheSteps::fills_same))]
    fn put_lines_of<O: Orders>(
        &self,
        orders: &mut O,
        caches: &mut Caches,
        number: usize,
    ) -> Result<(), AllocError>
        requires fillable { CanBeFilled self.now caches.old }
        requires root { HasPart lacks_root caches.old number }
        requires lacks { lacks_lines (slice_get caches.old.units.items number) ≡ true }
        ensures filled { IfOk result (λ _. HasPart lacks_lines caches.new number) }
        ensures fills { Fills O.pair_places self.now caches.old caches.new }
    {
        let lines = self.lines_part(
            &mut caches.room,
            orders,
            &mut caches.built,
            caches.units.as_slice(),
            number,
        )?;
        put_lines(&mut caches.units, number, lines);
        Ok(())
    }

    /// The calls of a function of a unit, whose functions are kept.
    fn calls_by_number(
        &self,
        room: &mut Room,
        built: &mut BuiltUnits,
        units: &[UnitCaches],
        number: usize,
        function: usize,
    ) -> blz_error::Result<CallLists>
        requires readable { IsReadable self.now.dwarf.now }
        requires built { BuiltFor self.now built.old }
        requires fits { PartsFor self.now units.now }
        requires filled { lacks_functions (slice_get units.now number) ≡ false }
        ensures value { Gives (λ l. l) result
            (or_invalid (as_read self.now function_calls number function)) }
        ensures built { BuiltFor self.now built.new }
    {
        let place = match function_place(units, number, function) {
            Ok(place) => place,
            Err(e) => return Err(e),
        };
        self.read_calls(room, built, number, place)
    }

    /// What is kept of the calls of a function of a unit, whose functions are kept.
    fn calls_part<O: Orders>(
        &self,
        room: &mut Room,
        orders: &mut O,
        built: &mut BuiltUnits,
        units: &[UnitCaches],
        number: usize,
        function: usize,
    ) -> Result<Cache<InlinedFunctions>, AllocError>
        requires readable { IsReadable self.now.dwarf.now }
        requires built { BuiltFor self.now built.old }
        requires fits { PartsFor self.now units.now }
        requires filled { lacks_functions (slice_get units.now number) ≡ false }
        ensures read { IfOk result (AreCallsOf O.pair_places self.now number function) }
        ensures built { BuiltFor self.now built.new }
    {
        match self.calls_by_number(room, built, units, number, function) {
            Ok(lists) => {
                let calls = lists.indexed(self.alloc, orders)?;
                Ok(Cache::Value(calls))
            },
            Err(e) => Ok(Cache::Mark(mark_of(&e)?)),
        }
    }

    /// Puts the calls of a function of a unit that lacks them, whose functions are kept.
    #[tactic(auto, using(crate::proofs::CacheSteps::fills_same))]
    fn put_calls_of<O: Orders>(
        &self,
        orders: &mut O,
        caches: &mut Caches,
        number: usize,
        function: usize,
    ) -> Result<(), AllocError>
        requires fillable { CanBeFilled self.now caches.old }
        requires functions { HasPart lacks_functions caches.old number }
        requires lacks { lacks_calls (slice_get caches.old.units.items number) function ≡ true }
        ensures filled { IfOk result (λ _. HasCallsOf caches.new number function) }
        ensures fills { Fills O.pair_places self.now caches.old caches.new }
    {
        let calls = self.calls_part(
            &mut caches.room,
            orders,
            &mut caches.built,
            caches.units.as_slice(),
            number,
            function,
        )?;
        put_calls(&mut caches.room, &mut caches.units, number, function, calls)
    }

    /// Reads the calls of a function of a unit where they are not kept.
    #[tactic(auto, using(crate::proofs::CacheSteps::fills_same))]
    pub fn fill_calls<O: Orders>(
        &self,
        orders: &mut O,
        caches: &mut Caches,
        number: usize,
        function: usize,
    ) -> blz_error::Result<()>
        requires fillable { CanBeFilled self.now caches.old }
        ensures filled { IfOk result (λ _. HasCallsOf caches.new number function) }
        ensures want { IfErr result (λ e. e.kind ≡ OutOfMemory) }
        ensures fills { Fills O.pair_places self.now caches.old caches.new }
    {
        self.fill_functions(orders, caches, number)?;
        if !lacks_calls(caches.units.as_slice(), number, function) {
            return Ok(());
        }
        match self.put_calls_of(orders, caches, number, function) {
            Ok(()) => Ok(()),
            Err(_) => Err(caches.room.want()),
        }
    }
}
