//! Questions to units, whose parts are read when they are first asked for.
ghost use Rattle.std.specs.Prelude.{◌≡◌, ◌<◌, IfOk, IfSome};
ghost use Rattle.blz_model.specs.Part.{Gives};
ghost use Rattle.blz_info.specs.Marks.{or_invalid};
ghost use Rattle.blz_reader.specs.Filling.{CanBeFilled, Fills, HasFunctions};
ghost use Rattle.blz_reader.specs.Growing.{Told};
ghost use Rattle.blz_reader.specs.Readers.{as_read, as_texts_tell};
ghost use Rattle.blz_reader.specs.SiteViews.{site_view};
ghost use Rattle.blz_units.specs.UnitAnswers.{unit_language, best_function, function_at};
ghost use Rattle.blz_units.specs.UnitSites.{line_in, location_at};

use crate::reader::Reader;
use blz_bytes::{Orders, Steps};
use blz_error::Result;
use blz_line::Location;
use blz_model::SrcLang;
use blz_units::announced::units_at::UnitsAt;
use blz_units::caches::Caches;
use blz_units::look;
use std::sync::ledger::{Blank, Ledger};

impl<'r, 's, 'b> Reader<'r, 's, 'b> {
    /// The language of a unit.
    pub fn language(&self, caches: &mut Caches, number: usize) -> Result<SrcLang>
        requires fillable { CanBeFilled self.now caches.old }
        ensures value { Gives (λ l. l) result
            (or_invalid (as_read self.now unit_language number)) }
        ensures fills { (told : Told) → Fills told self.now caches.old caches.new }
    {
        self.fill_root(caches, number)?;
        look::language_of(caches.units.as_slice(), number)
    }

    /// The number of the function of an address in a unit.
    fn function_in<O: Orders, L: Ledger>(
        &self,
        orders: &mut O,
        caches: &mut Caches,
        number: usize,
        addr: u64,
        steps: &mut Steps<L>,
    ) -> Result<Option<usize>>
        requires fillable { CanBeFilled self.now caches.old }
        ensures value { Gives (λ n. n) result
            (or_invalid (as_read self.now best_function addr number)) }
        ensures there { IfOk result (λ _. HasFunctions caches.new number) }
        ensures fills { Fills O.pair_places self.now caches.old caches.new }
    {
        self.fill_functions(orders, caches, number)?;
        look::function_at(caches.units.as_slice(), number, addr, steps)
    }

    /// The function of an address, of the units that announce it.
    #[tactic(auto, using(crate::proofs::CacheSteps::fills_same))]
    pub fn find_function<O: Orders, L: Ledger>(
        &self,
        orders: &mut O,
        caches: &mut Caches,
        addr: u64,
        blank: Blank,
    ) -> Result<Option<(usize, usize)>>
        requires name { blank.name ≡ L.name }
        requires parts { blank.parts ≡ L.parts }
        requires some { 0 < blank.parts }
        requires fillable { CanBeFilled self.now caches.old }
        ensures value { Gives (λ r. r) result (or_invalid (as_read self.now function_at addr)) }
        ensures there { IfOk result (λ r. IfSome r (λ r. HasFunctions caches.new r.0)) }
        ensures fills { Fills O.pair_places self.now caches.old caches.new }
    {
        let mut steps: Steps<L> = Steps::new(blank);
        let mut units = UnitsAt::once(&self.table.announced, addr);
        loop {
            let number = match units.next_unit(&mut steps) {
                Some(number) => number,
                None => return Ok(None),
            };
            match self.function_in(orders, caches, number, addr, &mut steps) {
                Ok(Some(function)) => return Ok(Some((number, function))),
                Ok(None) => {},
                Err(fault) => return Err(fault),
            }
        }
    }

    /// The place of an address in the sources, by the lines of a unit.
    fn location_in<O: Orders>(
        &self,
        orders: &mut O,
        caches: &mut Caches,
        number: usize,
        addr: u64,
    ) -> Result<Option<Location<'b>>>
        requires fillable { CanBeFilled self.now caches.old }
        ensures value { Gives site_view result (as_texts_tell self.now line_in addr number) }
        ensures fills { Fills O.pair_places self.now caches.old caches.new }
    {
        self.fill_lines(orders, caches, number)?;
        look::location_at(caches.units.as_slice(), &self.dwarf.texts, number, addr)
    }

    /// The place of an address in the sources, of the units that announce it.
    #[tactic(auto, using(crate::proofs::CacheSteps::fills_same))]
    pub fn find_location<O: Orders, L: Ledger>(
        &self,
        orders: &mut O,
        caches: &mut Caches,
        addr: u64,
        blank: Blank,
    ) -> Result<Option<Location<'b>>>
        requires name { blank.name ≡ L.name }
        requires parts { blank.parts ≡ L.parts }
        requires some { 0 < blank.parts }
        requires fillable { CanBeFilled self.now caches.old }
        ensures value { Gives site_view result (as_texts_tell self.now location_at addr) }
        ensures fills { Fills O.pair_places self.now caches.old caches.new }
    {
        let mut steps: Steps<L> = Steps::new(blank);
        let mut units = UnitsAt::once(&self.table.announced, addr);
        loop {
            let number = match units.next_unit(&mut steps) {
                Some(number) => number,
                None => return Ok(None),
            };
            match self.location_in(orders, caches, number, addr) {
                Ok(Some(location)) => return Ok(Some(location)),
                Ok(None) => {},
                Err(fault) => return Err(fault),
            }
        }
    }
}
