//! The functions of all units: those of a name, and all of them.
ghost use Rattle.std.specs.Prelude.{◌≡◌, true, false, option_map, IfOk};
ghost use Rattle.blz_model.specs.Part.{Gives};
ghost use Rattle.blz_info.specs.Marks.{or_invalid};
ghost use Rattle.blz_units.specs.KeptParts.{functions_at};
ghost use Rattle.blz_reader.specs.ShownFunctions.{ShowsUnits, all_shown};
ghost use Rattle.blz_units.specs.UnitAnswers.{unit_functions, functions_named, all_functions};
ghost use Rattle.blz_reader.specs.UnitNames.{listed, list_in};
ghost use Rattle.blz_index.specs.UnitsWarm.{as_read, functions_kept, CanBeAsked, Leaves, kept_list, AllKept};

use crate::units::Units;
use blz_bytes::Orders;
use blz_error::Result;
use blz_functions::Function;
use blz_model::Cache;
use blz_reader::reader::Reader;
use blz_reader::visit_function::VisitFunction;
use blz_units::caches::UnitCaches;
use blz_units::dwarf::Dwarf;
use std::alloc::Global;

/// The functions of a unit that are kept.
fn list_of(units: &[UnitCaches], number: usize) -> Option<&[Function]>
    ensures { option_map (λ l. l.now) result ≡ list_in (functions_at units.now number) }
{
    let Some(unit) = units.get(number) else {
        return None;
    };
    match &unit.functions {
        Cache::Value(functions) => Some(functions.functions()),
        Cache::Mark(_) | Cache::Empty => None,
    }
}

impl Units {
    /// Reads the functions of a unit where they are not kept; `functions` and `unit_functions` then have them.
    /// InvalidDwarf exactly where they have no value.
    pub fn fill_functions<O: Orders>(
        &mut self,
        alloc: Global,
        orders: &mut O,
        dwarf: &Dwarf<'_, '_>,
        unit: usize,
    ) -> Result<()>
        requires asked { CanBeAsked dwarf.now self.old }
        ensures value { Gives (λ _. kept_list self.new unit) result
            (or_invalid (listed (as_read dwarf.now self.old unit_functions unit))) }
        ensures there { IfOk result (λ _. functions_kept self.new unit ≡ true) }
        ensures leaves { Leaves O.pair_places dwarf.now self.old self.new }
    {
        let reader = Reader {
            alloc,
            dwarf,
            table: &self.table,
        };
        reader.list_functions(orders, &mut self.caches, unit)
    }

    /// The functions of a unit in file order; Some exactly where they are kept.
    pub fn functions(&self, unit: usize) -> Option<&[Function]>
        ensures { option_map (λ l. l.now) result ≡ kept_list self.now unit }
    {
        list_of(self.caches.units.as_slice(), unit)
    }

    /// Of each unit, in order, the first function that has a name, by the numbers of the unit and of the function there.
    /// InvalidDwarf exactly where the functions of a unit have no value.
    pub fn find_name<O: Orders>(
        &mut self,
        alloc: Global,
        orders: &mut O,
        dwarf: &Dwarf<'_, '_>,
        name: &str,
    ) -> Result<Vec<(usize, usize)>>
        requires asked { CanBeAsked dwarf.now self.old }
        ensures value { Gives (λ v. v.items) result
            (or_invalid (as_read dwarf.now self.old (functions_named dwarf.now.texts) name.now)) }
        ensures there { IfOk result (λ v. AllKept self.new v.items) }
        ensures leaves { Leaves O.pair_places dwarf.now self.old self.new }
    {
        let reader = Reader {
            alloc,
            dwarf,
            table: &self.table,
        };
        reader.find_name(orders, &mut self.caches, name)
    }

    /// Shows every function of each unit to a visitor, also one without a name, units and functions in their order, until
    /// it breaks. InvalidDwarf exactly where the functions of a unit have no value, once all before it are shown. Not to
    /// be called with a visitor that has answered Break.
    pub fn for_each_function<O: Orders, W: VisitFunction>(
        &mut self,
        alloc: Global,
        orders: &mut O,
        dwarf: &Dwarf<'_, '_>,
        visit: &mut W,
    ) -> Result<()>
        requires asked { CanBeAsked dwarf.now self.old }
        requires goes_on { W.stopped visit.old ≡ false }
        ensures shows { ShowsUnits (as_read dwarf.now self.old all_functions)
            (as_read dwarf.now self.old all_shown) (W.shown visit.old) (W.shown visit.new)
            (W.stopped visit.new) result }
        ensures leaves { Leaves O.pair_places dwarf.now self.old self.new }
    {
        let reader = Reader {
            alloc,
            dwarf,
            table: &self.table,
        };
        reader.for_each_function(orders, &mut self.caches, visit)
    }
}
