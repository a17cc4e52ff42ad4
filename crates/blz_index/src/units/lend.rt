//! Parts of a unit, read first and lent after.
ghost use Rattle.std.specs.Prelude.{◌≡◌, ◌<◌, true, length, Some, IfErr, IfOk, IfSome};
ghost use Rattle.std.specs.Option.{option_map};
ghost use Rattle.blz_error.specs.declared.kind.ErrorKind.TheVariants.{OutOfMemory};
ghost use Rattle.blz_model.specs.Part.{Gives, Exactly};
ghost use Rattle.blz_info.specs.Marks.{or_invalid};
ghost use Rattle.blz_units.specs.BuiltUnits.{Files};
ghost use Rattle.blz_units.specs.KeptAnswers.{Repeats, kept_part, calls_listed, calls_told, value_in};
ghost use Rattle.blz_units.specs.KeptParts.{lists_view, calls_view};
ghost use Rattle.blz_units.specs.UnitAnswers.{unit_functions, unit_lines, function_calls};
ghost use Rattle.blz_index.specs.UnitsWarm.{as_read, units_table, lines_kept, functions_cache, lines_cache, calls_cache, calls_kept, CanBeAsked, Leaves, UnitsFit};

use crate::units::Units;
use blz_bytes::Orders;
use blz_error::Result;
use blz_functions::{Functions, InlinedFunctions};
use blz_line::Lines;
use blz_reader::reader::Reader;
use blz_units::dwarf::Dwarf;
use blz_units::look;
use std::alloc::Global;

impl Units {
    /// The functions of a unit, with their ranges; Some exactly where they are kept.
    pub fn unit_functions(&self, unit: usize) -> Option<&Functions>
        ensures kept { option_map (λ x. x.now) result ≡ value_in (functions_cache self.now unit) }
        ensures value { IfSome result (λ x. (f : Files) → UnitsFit f self.now
            → unit_functions f (units_table self.now) unit ≡ Some (lists_view x.now)) }
    {
        look::functions_there(self.caches.units.as_slice(), unit)
    }

    /// The functions of a unit. InvalidDwarf exactly where the unit they are read from cannot be built, or one of its
    /// entries, or the name or the ranges of one of its functions, has no value. It is `fill_functions`, which says what
    /// is kept after, and `unit_functions`.
    pub fn parse_functions<O: Orders>(
        &mut self,
        alloc: Global,
        orders: &mut O,
        dwarf: &Dwarf<'_, '_>,
        unit: usize,
    ) -> Result<&Functions>
        requires asked { CanBeAsked dwarf.now self.old }
        requires there { unit < length (units_table self.old).kept }
        ensures { Gives (λ x. lists_view x.now) result
            (or_invalid (as_read dwarf.now self.old unit_functions unit)) }
    {
        self.fill_functions(alloc, orders, dwarf, unit)?;
        match self.unit_functions(unit) {
            Some(functions) => Ok(functions),
            None => unreachable!(),
        }
    }

    /// Reads the lines of a unit where they are not kept, as far as they can be read; `lines` then tells them. Only want
    /// of memory is refused.
    pub fn fill_lines<O: Orders>(
        &mut self,
        alloc: Global,
        orders: &mut O,
        dwarf: &Dwarf<'_, '_>,
        unit: usize,
    ) -> Result<()>
        requires asked { CanBeAsked dwarf.now self.old }
        requires there { unit < length (units_table self.old).kept }
        ensures there { IfOk result (λ _. lines_kept self.new unit ≡ true) }
        ensures want { IfErr result (λ e. e.kind ≡ OutOfMemory) }
        ensures leaves { Leaves O.pair_places dwarf.now self.old self.new }
    {
        let reader = Reader {
            alloc,
            dwarf,
            table: &self.table,
        };
        reader.fill_lines(orders, &mut self.caches, unit)
    }

    /// The lines of a unit that were read; None exactly where it has no line program. InvalidDwarf exactly where they
    /// have no value; takes no memory.
    pub fn lines(&self, unit: usize) -> Result<Option<&Lines>>
        requires { lines_kept self.now unit ≡ true }
        ensures value { (f : Files) → UnitsFit f self.now
            → Exactly (λ o. option_map (λ l. l.now.table) o) result
            (or_invalid (unit_lines f (units_table self.now) unit)) }
        ensures kept { Repeats (λ o. option_map (λ l. l.now) o) result
            (kept_part (lines_cache self.now unit)) }
    {
        match look::lines_of(self.caches.units.as_slice(), unit) {
            Ok(Some(lines)) => Ok(Some(lines)),
            Ok(None) => Ok(None),
            Err(fault) => Err(fault),
        }
    }

    /// The lines of a unit; None exactly where it has no line program. InvalidDwarf exactly where the unit cannot be
    /// built, or its line program or the string of one of its files has no value. It is `fill_lines`, which says what is
    /// kept after, and `lines`.
    pub fn parse_lines<O: Orders>(
        &mut self,
        alloc: Global,
        orders: &mut O,
        dwarf: &Dwarf<'_, '_>,
        unit: usize,
    ) -> Result<Option<&Lines>>
        requires asked { CanBeAsked dwarf.now self.old }
        requires there { unit < length (units_table self.old).kept }
        ensures { Gives (λ o. option_map (λ l. l.now.table) o) result
            (or_invalid (as_read dwarf.now self.old unit_lines unit)) }
    {
        self.fill_lines(alloc, orders, dwarf, unit)?;
        self.lines(unit)
    }

    /// Reads the inlined calls of a function of a unit where they are not kept; `inlined_functions` then has them.
    /// InvalidDwarf exactly where they have no value, or there is no such function.
    pub fn fill_inlined_functions<O: Orders>(
        &mut self,
        alloc: Global,
        orders: &mut O,
        dwarf: &Dwarf<'_, '_>,
        unit: usize,
        function: usize,
    ) -> Result<()>
        requires asked { CanBeAsked dwarf.now self.old }
        ensures value { Gives (λ _. calls_told (calls_cache self.new unit function)) result
            (or_invalid (calls_listed (as_read dwarf.now self.old function_calls unit function))) }
        ensures there { IfOk result (λ _. calls_kept self.new unit function ≡ true) }
        ensures leaves { Leaves O.pair_places dwarf.now self.old self.new }
    {
        let reader = Reader {
            alloc,
            dwarf,
            table: &self.table,
        };
        reader.list_calls(orders, &mut self.caches, unit, function)
    }

    /// The inlined calls of a function of a unit; Some exactly where they are kept.
    pub fn inlined_functions(&self, unit: usize, function: usize) -> Option<&InlinedFunctions>
        ensures kept { option_map (λ x. x.now) result
            ≡ value_in (calls_cache self.now unit function) }
        ensures value { IfSome result (λ x. (f : Files) → UnitsFit f self.now
            → function_calls f (units_table self.now) unit function ≡ Some (calls_view x.now)) }
    {
        look::calls_there(self.caches.units.as_slice(), unit, function)
    }

    /// The inlined calls of a function of a unit. InvalidDwarf exactly where the functions of the unit have no value,
    /// none has this number, an entry below the function is not closed or not whole, or the name or the ranges of one of
    /// the calls has no value. It is `fill_inlined_functions`, which says what is kept after, and `inlined_functions`.
    pub fn parse_inlined_functions<O: Orders>(
        &mut self,
        alloc: Global,
        orders: &mut O,
        dwarf: &Dwarf<'_, '_>,
        unit: usize,
        function: usize,
    ) -> Result<&InlinedFunctions>
        requires asked { CanBeAsked dwarf.now self.old }
        requires there { unit < length (units_table self.old).kept }
        ensures { Gives (λ x. calls_view x.now) result
            (or_invalid (as_read dwarf.now self.old function_calls unit function)) }
    {
        self.fill_inlined_functions(alloc, orders, dwarf, unit, function)?;
        match self.inlined_functions(unit, function) {
            Some(calls) => Ok(calls),
            None => unreachable!(),
        }
    }
}
