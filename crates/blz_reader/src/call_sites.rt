//! The inlined calls that cover an address, with their names and their places in the sources.
ghost use Rattle.std.specs.Prelude.{map, Some};
ghost use Rattle.blz_model.specs.Part.{Gives, Exactly, all_good};
ghost use Rattle.blz_info.specs.Marks.{or_invalid};
ghost use Rattle.blz_reader.specs.Filling.{CanBeFilled, Fills};
ghost use Rattle.blz_reader.specs.Readers.{as_read, as_texts_tell};
ghost use Rattle.blz_reader.specs.SiteViews.{inlined_read, inlined_view, site_read, site_view};
ghost use Rattle.blz_units.specs.UnitAnswers.{covering_calls};
ghost use Rattle.blz_units.specs.UnitSites.{call_name, inlined_at};

use crate::reader::Reader;
use crate::sites::{InlinedSite, InlinedSites};
use blz_bytes::Orders;
use blz_entry::{StrPlace, Texts, invalid};
use blz_error::Result;
use blz_functions::InlinedFunction;
use blz_line::Location;
use blz_units::caches::Caches;
use blz_units::look::{chain_at, site_at};

/// The name of a call, empty where it has none.
fn call_name<'b>(texts: &Texts<'b>, name: Option<StrPlace>) -> Result<&'b str>
    ensures { Exactly (λ n. n.now) result (call_name texts.now name) }
{
    let Some(place) = name else {
        return Ok("");
    };
    match str::from_utf8(texts.get(place)) {
        Ok(text) => Ok(text),
        Err(_) => Err(invalid("the name of a call is not UTF-8")),
    }
}

impl<'r, 's, 'b> Reader<'r, 's, 'b> {
    /// The calls of a function that cover an address.
    #[tactic(auto, unfolding(blz_units::specs::UnitAnswers::covering_calls))]
    fn chain_in<O: Orders>(
        &self,
        orders: &mut O,
        caches: &mut Caches,
        number: usize,
        function: usize,
        addr: u64,
    ) -> Result<Vec<InlinedFunction>>
        requires fillable { CanBeFilled self.now caches.old }
        ensures value { Gives (λ v. v.items) result
            (or_invalid (as_read self.now covering_calls addr number function)) }
        ensures fills { Fills O.pair_places self.now caches.old caches.new }
    {
        self.fill_calls(orders, caches, number, function)?;
        chain_at(self.alloc, caches.units.as_slice(), number, function, addr)
    }

    /// Where a call stands in a file of its function's unit.
    fn site_in<O: Orders>(
        &self,
        orders: &mut O,
        caches: &mut Caches,
        number: usize,
        call: &InlinedFunction,
        file: u64,
    ) -> Result<Option<Location<'b>>>
        requires fillable { CanBeFilled self.now caches.old }
        ensures value { Gives site_view result (site_read self.now number call.now (Some file)) }
        ensures fills { Fills O.pair_places self.now caches.old caches.new }
    {
        self.fill_lines(orders, caches, number)?;
        site_at(
            caches.units.as_slice(),
            &self.dwarf.texts,
            number,
            call,
            file,
        )
    }

    /// Where a call of a function of a unit stands in the sources.
    #[tactic(auto, using(crate::proofs::CacheSteps::fills_same))]
    fn site_of<O: Orders>(
        &self,
        orders: &mut O,
        caches: &mut Caches,
        number: usize,
        call: &InlinedFunction,
    ) -> Result<Option<Location<'b>>>
        requires fillable { CanBeFilled self.now caches.old }
        ensures value { Gives site_view result
            (site_read self.now number call.now call.now.call_file) }
        ensures fills { Fills O.pair_places self.now caches.old caches.new }
    {
        match call.call_file {
            Some(file) => self.site_in(orders, caches, number, call, file),
            None => Ok(None),
        }
    }

    /// A call with its name and its place in the sources.
    #[tactic(auto, using(crate::proofs::CacheSteps::fills_same), unfolding(blz_units::specs::UnitSites::inlined_by))]
    fn inlined<O: Orders>(
        &self,
        orders: &mut O,
        caches: &mut Caches,
        number: usize,
        call: &InlinedFunction,
    ) -> Result<InlinedSite<'b>>
        requires fillable { CanBeFilled self.now caches.old }
        ensures value { Gives inlined_view result (inlined_read self.now number call.now) }
        ensures fills { Fills O.pair_places self.now caches.old caches.new }
    {
        let name = match call_name(&self.dwarf.texts, call.name) {
            Ok(name) => name,
            Err(fault) => return Err(fault),
        };
        match self.site_of(orders, caches, number, call) {
            Ok(site) => Ok(InlinedSite { name, site }),
            Err(fault) => Err(fault),
        }
    }

    /// Some calls with their names and their places in the sources.
    #[tactic(auto, using(crate::proofs::CacheSteps::fills_same))]
    fn inlined_each<O: Orders>(
        &self,
        orders: &mut O,
        caches: &mut Caches,
        number: usize,
        calls: &[InlinedFunction],
    ) -> Result<InlinedSites<'b>>
        requires fillable { CanBeFilled self.now caches.old }
        ensures value { Gives (λ s. s) result
            (all_good (map (inlined_read self.now number) calls.now)) }
        ensures fills { Fills O.pair_places self.now caches.old caches.new }
    {
        let mut sites = Vec::new(self.alloc);
        for call in calls {
            match self.inlined(orders, caches, number, call) {
                Ok(site) => sites.push(site)?,
                Err(fault) => return Err(fault),
            }
        }
        Ok(InlinedSites::from_vec(sites))
    }

    /// The calls of a function that cover an address, with their names and their places in the sources.
    #[tactic(auto, using(crate::proofs::CacheSteps::fills_same), unfolding(blz_units::specs::UnitSites::inlined_at))]
    pub fn find_inlined<O: Orders>(
        &self,
        orders: &mut O,
        caches: &mut Caches,
        number: usize,
        function: usize,
        addr: u64,
    ) -> Result<InlinedSites<'b>>
        requires fillable { CanBeFilled self.now caches.old }
        ensures value { Gives (λ s. s) result
            (as_texts_tell self.now inlined_at addr number function) }
        ensures fills { Fills O.pair_places self.now caches.old caches.new }
    {
        let calls = self.chain_in(orders, caches, number, function, addr)?;
        self.inlined_each(orders, caches, number, calls.as_slice())
    }
}
