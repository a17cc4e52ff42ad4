//! All parts of all units, read ahead of the questions.
ghost use Rattle.std.specs.Prelude.{◌≡◌, IfOk};
ghost use Rattle.std.specs.List.{slice_get};
ghost use Rattle.blz_reader.specs.Filling.{CanBeFilled, Fills, HasFirstCalls};
ghost use Rattle.blz_units.specs.KeptParts.{functions_at, functions_count, AreFull, AllFull};

use crate::reader::Reader;
use blz_bytes::Orders;
use blz_error::Result;
use blz_model::Cache;
use blz_units::caches::{Caches, UnitCaches};

/// How many functions of a unit are kept.
fn functions_count(units: &[UnitCaches], number: usize) -> usize
    ensures { result ≡ functions_count (functions_at units.now number) }
{
    let Some(unit) = units.get(number) else {
        return 0;
    };
    match &unit.functions {
        Cache::Value(functions) => functions.functions().len(),
        Cache::Mark(_) | Cache::Empty => 0,
    }
}

impl<'r, 's, 'b> Reader<'r, 's, 'b> {
    /// Reads the calls of the first functions of a unit where they are not kept.
    fn fill_first_calls<O: Orders>(
        &self,
        orders: &mut O,
        caches: &mut Caches,
        number: usize,
        count: usize,
    ) -> Result<()>
        requires fillable { CanBeFilled self.now caches.old }
        ensures filled { IfOk result (λ _. HasFirstCalls count caches.new number) }
        ensures fills { Fills O.pair_places self.now caches.old caches.new }
    {
        for function in 0..count {
            self.fill_calls(orders, caches, number, function)?;
        }
        Ok(())
    }

    /// Reads all parts of a unit that are not kept.
    #[tactic(auto, using(crate::proofs::CacheSteps::fills_same))]
    fn fill_parts<O: Orders>(
        &self,
        orders: &mut O,
        caches: &mut Caches,
        number: usize,
    ) -> Result<()>
        requires fillable { CanBeFilled self.now caches.old }
        ensures filled { IfOk result (λ _. AreFull (slice_get caches.new.units.items number)) }
        ensures fills { Fills O.pair_places self.now caches.old caches.new }
    {
        self.fill_root(caches, number)?;
        self.fill_lines(orders, caches, number)?;
        self.fill_functions(orders, caches, number)?;
        let count = functions_count(caches.units.as_slice(), number);
        self.fill_first_calls(orders, caches, number, count)?;
        Ok(())
    }

    /// Reads all parts of all units that are not kept.
    pub fn fill_all<O: Orders>(&self, orders: &mut O, caches: &mut Caches) -> Result<()>
        requires fillable { CanBeFilled self.now caches.old }
        ensures filled { IfOk result (λ _. AllFull caches.new.units.items) }
        ensures fills { Fills O.pair_places self.now caches.old caches.new }
    {
        for number in 0..self.table.kept.len() {
            self.fill_parts(orders, caches, number)?;
        }
        Ok(())
    }
}
