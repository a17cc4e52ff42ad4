//! Shows the functions of a listing.
ghost use Rattle.std.specs.Prelude.{◌≡◌, ◌<◌, false, map, length};
ghost use Rattle.blz_elf.specs.Listings.{Shows, ShowsAll, listing_of};
ghost use Rattle.blz_index.specs.UnitsWarm.{units_table};
ghost use Rattle.blz_resolver.specs.FunctionNames.{named_only};
ghost use Rattle.blz_resolver.specs.BookAnswers.{listed_read, unit_read, units_read};
ghost use Rattle.blz_resolver.specs.Reading.{Reads, Keeps};

use crate::answers::book_reader::BookReader;
use blz_bytes::Orders;
use blz_elf::{Flow, Visit};
use blz_error::Result;
use blz_index::{Function, Units};
use std::alloc::Global;

impl<'b> BookReader<'_, 'b> {
    // Shows the functions that have a name, until one is broken or the visitor breaks.
    fn show<V: Visit>(
        &self,
        alloc: Global,
        asked: bool,
        functions: &[Function],
        visit: &mut V,
    ) -> Result<Flow>
        requires { V.stopped visit.old ≡ false }
        ensures { Shows (listing_of (map (listed_read self.now asked) (named_only functions.now)))
            (V.shown visit.old) (V.shown visit.new) (V.stopped visit.new) result }
    {
        for function in functions {
            if function.name.is_none() {
                continue;
            }
            let info = self.function_info(alloc, asked, function)?;
            if let Flow::Break = visit.visit(&info) {
                return Ok(Flow::Break);
            }
        }
        Ok(Flow::Continue)
    }

    // Shows the functions of a unit that have a name.
    fn show_unit<O: Orders, V: Visit>(
        &self,
        alloc: Global,
        orders: &mut O,
        units: &mut Units,
        asked: bool,
        unit: usize,
        visit: &mut V,
    ) -> Result<Flow>
        requires reads { Reads self.now units.old }
        requires there { unit < length (units_table units.old).kept }
        requires goes_on { V.stopped visit.old ≡ false }
        ensures shows { Shows (unit_read self.now units.old asked unit)
            (V.shown visit.old) (V.shown visit.new) (V.stopped visit.new) result }
        ensures keeps { Keeps self.now units.old units.new }
    {
        units.fill_functions(alloc, orders, &self.dwarf, unit)?;
        match units.functions(unit) {
            Some(functions) => self.show(alloc, asked, functions, visit),
            None => Ok(Flow::Continue),
        }
    }

    /// Shows the functions of all units that have a name, units and functions in their order. It ends where the visitor
    /// breaks. Refused by the first mark, once all before it was shown.
    pub fn for_each<O: Orders, V: Visit>(
        &self,
        alloc: Global,
        orders: &mut O,
        units: &mut Units,
        asked: bool,
        visit: &mut V,
    ) -> Result<()>
        requires reads { Reads self.now units.old }
        requires goes_on { V.stopped visit.old ≡ false }
        ensures shows { ShowsAll (units_read self.now units.old asked)
            (V.shown visit.old) (V.shown visit.new) (V.stopped visit.new) result }
        ensures keeps { Keeps self.now units.old units.new }
    {
        for unit in 0..units.len() {
            if let Flow::Break = self.show_unit(alloc, orders, units, asked, unit, visit)? {
                return Ok(());
            }
        }
        Ok(())
    }
}
