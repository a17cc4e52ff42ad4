//! The functions of all units: those of a name, and all of them.
ghost use Rattle.std.specs.Prelude.{◌≡◌, ◌++◌, [], false, IfOk, OnOk};
ghost use Rattle.blz_model.specs.Part.{Gives};
ghost use Rattle.blz_info.specs.Marks.{or_invalid};
ghost use Rattle.blz_reader.specs.Filling.{CanBeFilled, Fills, HasFunctions};
ghost use Rattle.blz_reader.specs.Listing.{ListsFunctions};
ghost use Rattle.blz_reader.specs.Readers.{as_read, as_texts_tell};
ghost use Rattle.blz_reader.specs.ShownFunctions.{ShowsUnits, all_shown};
ghost use Rattle.blz_units.specs.UnitAnswers.{unit_functions, functions_named, all_functions, with_called};
ghost use Rattle.blz_reader.specs.UnitNames.{named_in, AllThere, ShowsIn};

use crate::names::called_in;
use crate::reader::Reader;
use crate::visit_function::{VisitFunction, show_functions};
use blz_bytes::Orders;
use blz_error::Result;
use blz_relocations::Flow;
use blz_units::caches::Caches;
use blz_units::look::functions_of;
use std::alloc::AllocError;

/// Puts the function of a unit behind others, if there is one.
fn put_called(
    found: &mut Vec<(usize, usize)>,
    unit: usize,
    function: Option<usize>,
) -> std::result::Result<(), AllocError>
    ensures { OnOk result (found.new.items ≡ found.old.items ++ with_called unit function []) }
{
    match function {
        Some(function) => {
            found.push((unit, function))?;
            Ok(())
        },
        None => Ok(()),
    }
}

impl<'r, 's, 'b> Reader<'r, 's, 'b> {
    /// The first function of a name in a unit.
    fn named_in<O: Orders>(
        &self,
        orders: &mut O,
        caches: &mut Caches,
        number: usize,
        name: &str,
    ) -> Result<Option<usize>>
        requires fillable { CanBeFilled self.now caches.old }
        ensures value { Gives (λ n. n) result
            (or_invalid (as_texts_tell self.now named_in name.now number)) }
        ensures there { IfOk result (λ _. HasFunctions caches.new number) }
        ensures fills { Fills O.pair_places self.now caches.old caches.new }
    {
        self.fill_functions(orders, caches, number)?;
        called_in(caches.units.as_slice(), &self.dwarf.texts, number, name)
    }

    /// Of each unit, in order, the first function that has a name.
    #[tactic(auto, using(crate::proofs::CacheSteps::fills_same))]
    pub fn find_name<O: Orders>(
        &self,
        orders: &mut O,
        caches: &mut Caches,
        name: &str,
    ) -> Result<Vec<(usize, usize)>>
        requires fillable { CanBeFilled self.now caches.old }
        ensures value { Gives (λ v. v.items) result
            (or_invalid (as_texts_tell self.now functions_named name.now)) }
        ensures there { IfOk result (λ v. AllThere caches.new.units.items v.items) }
        ensures fills { Fills O.pair_places self.now caches.old caches.new }
    {
        let mut found = Vec::new(self.alloc);
        for number in 0..self.table.kept.len() {
            let function = match self.named_in(orders, caches, number, name) {
                Ok(function) => function,
                Err(fault) => return Err(fault),
            };
            put_called(&mut found, number, function)?;
        }
        Ok(found)
    }

    /// Reads the functions of a unit where they are not kept; refused where they have no value.
    pub fn list_functions<O: Orders>(
        &self,
        orders: &mut O,
        caches: &mut Caches,
        number: usize,
    ) -> Result<()>
        requires fillable { CanBeFilled self.now caches.old }
        ensures value { ListsFunctions self.now caches.new number result }
        ensures there { IfOk result (λ _. HasFunctions caches.new number) }
        ensures fills { Fills O.pair_places self.now caches.old caches.new }
    {
        self.fill_functions(orders, caches, number)?;
        match functions_of(caches.units.as_slice(), number) {
            Ok(_) => Ok(()),
            Err(fault) => Err(fault),
        }
    }

    /// Shows the functions of a unit.
    fn show_unit<O: Orders, W: VisitFunction>(
        &self,
        orders: &mut O,
        caches: &mut Caches,
        number: usize,
        visit: &mut W,
    ) -> Result<Flow>
        requires fillable { CanBeFilled self.now caches.old }
        requires goes_on { W.stopped visit.old ≡ false }
        ensures shows { ShowsIn (as_read self.now unit_functions number) number
            (W.shown visit.old) (W.shown visit.new) (W.stopped visit.new) result }
        ensures fills { Fills O.pair_places self.now caches.old caches.new }
    {
        self.fill_functions(orders, caches, number)?;
        match functions_of(caches.units.as_slice(), number) {
            Ok(functions) => Ok(show_functions(visit, number, functions.functions())),
            Err(fault) => Err(fault),
        }
    }

    /// Shows every function of each unit, until the visitor breaks.
    #[tactic(auto, using(crate::proofs::CacheSteps::fills_same))]
    pub fn for_each_function<O: Orders, W: VisitFunction>(
        &self,
        orders: &mut O,
        caches: &mut Caches,
        visit: &mut W,
    ) -> Result<()>
        requires fillable { CanBeFilled self.now caches.old }
        requires goes_on { W.stopped visit.old ≡ false }
        ensures shows { ShowsUnits (as_read self.now all_functions) (as_read self.now all_shown)
            (W.shown visit.old) (W.shown visit.new) (W.stopped visit.new) result }
        ensures fills { Fills O.pair_places self.now caches.old caches.new }
    {
        for number in 0..self.table.kept.len() {
            match self.show_unit(orders, caches, number, visit) {
                Ok(Flow::Continue) => {},
                Ok(Flow::Break) => return Ok(()),
                Err(fault) => return Err(fault),
            }
        }
        Ok(())
    }
}
