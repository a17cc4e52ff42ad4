//! The answer of an address by the debug information of a bundle.
ghost use Rattle.std.specs.Prelude.{◌≡◌, ◌<◌, true, length, map, IfOk};
ghost use Rattle.blz_model.specs.Part.{Gives, all_good};
ghost use Rattle.blz_elf.specs.AnswerView.{answer_view, resolved_view};
ghost use Rattle.blz_index.specs.UnitsWarm.{units_table, functions_kept};
ghost use Rattle.blz_reader.specs.SiteViews.{site_view};
ghost use Rattle.blz_resolver.specs.AddressAnswers.{placed};
ghost use Rattle.blz_bundle.specs.BundleViews.{bundle_view};
ghost use Rattle.blz_resolver.specs.PlaceViews.{places_view};
ghost use Rattle.blz_resolver.specs.BookAnswers.{site_read, places_read, covered_read, placed_read, uncovered_read, answer_read, answers_read};
ghost use Rattle.blz_resolver.specs.Reading.{Reads, Keeps};
ghost use Rattle.blz_resolver.specs.Sources.{IsOfDebugFile};

use crate::answers::book_reader::BookReader;
use crate::answers::call_places::CallPlaces;
use blz_bytes::Orders;
use blz_elf::{Answer, ElfParser, FindSymOpts, ResolvedSym};
use blz_error::Result;
use blz_index::Units;
use blz_line::Location;
use std::alloc::Global;

/// A symbol with its places.
pub(crate) fn placed<'b>(symbol: ResolvedSym<'b>, places: CallPlaces<'b>) -> ResolvedSym<'b>
    ensures { resolved_view result ≡
        placed (resolved_view symbol.entry) (places_view places.entry) }
{
    ResolvedSym {
        name: symbol.name,
        module: symbol.module,
        addr: symbol.addr,
        size: symbol.size,
        lang: symbol.lang,
        code_info: places.code_info,
        inlined: places.inlined,
    }
}

impl<'b> BookReader<'_, 'b> {
    #[tactic(auto, unfolding(crate::specs::AddressAnswers::direct_site))]
    fn direct_site<O: Orders>(
        &self,
        alloc: Global,
        orders: &mut O,
        units: &mut Units,
        addr: u64,
        opts: &FindSymOpts,
    ) -> Result<Option<Location<'b>>>
        requires { Reads self.now units.old }
        ensures value { Gives site_view result (site_read self.now units.old addr opts.now) }
        ensures keeps { Keeps self.now units.old units.new }
    {
        if !opts.code_info() {
            return Ok(None);
        }
        units.find_location(alloc, orders, &self.dwarf, addr)
    }

    #[tactic(auto, unfolding(crate::specs::AddressAnswers::places_of))]
    fn places_of<O: Orders>(
        &self,
        alloc: Global,
        orders: &mut O,
        units: &mut Units,
        addr: u64,
        opts: &FindSymOpts,
        at: (usize, usize),
        direct: Option<Location<'b>>,
    ) -> Result<CallPlaces<'b>>
        requires reads { Reads self.now units.old }
        requires there { at.0 < length (units_table units.old).kept }
        ensures value { Gives places_view result
            (places_read self.now units.old addr opts.now at (site_view direct.entry)) }
        ensures keeps { Keeps self.now units.old units.new }
    {
        let Some(direct) = direct else {
            return Ok(CallPlaces::none(alloc));
        };
        if !opts.inlined_fns() {
            return Ok(CallPlaces::one(alloc, direct));
        }
        let calls = units.find_inlined_functions(alloc, orders, &self.dwarf, addr, at.0, at.1)?;
        Ok(CallPlaces::frames(alloc, direct, calls)?)
    }

    #[tactic(auto, unfolding(crate::specs::AddressAnswers::function_answer))]
    fn function_answer<O: Orders>(
        &self,
        alloc: Global,
        orders: &mut O,
        units: &mut Units,
        addr: u64,
        opts: &FindSymOpts,
        at: (usize, usize),
    ) -> Result<Answer<'b>>
        requires reads { Reads self.now units.old }
        requires kept { functions_kept units.old at.0 ≡ true }
        ensures value { Gives answer_view result
            (covered_read self.now units.old addr opts.now at) }
        ensures keeps { Keeps self.now units.old units.new }
    {
        let symbol = self.function_symbol(alloc, units, at)?;
        let direct = self.direct_site(alloc, orders, units, addr, opts)?;
        let places = self.places_of(alloc, orders, units, addr, opts, at, direct)?;
        Ok(Answer::Sym(placed(symbol, places)))
    }

    #[tactic(auto, unfolding(crate::specs::AddressAnswers::with_place))]
    fn with_place<O: Orders>(
        &self,
        alloc: Global,
        orders: &mut O,
        units: &mut Units,
        addr: u64,
        opts: &FindSymOpts,
        answer: Answer<'b>,
    ) -> Result<Answer<'b>>
        requires { Reads self.now units.old }
        ensures value { Gives answer_view result
            (placed_read self.now units.old addr opts.now (answer_view answer.entry)) }
        ensures keeps { Keeps self.now units.old units.new }
    {
        match answer {
            Answer::NoSym(reason) => Ok(Answer::NoSym(reason)),
            Answer::Sym(symbol) => {
                let direct = self.direct_site(alloc, orders, units, addr, opts)?;
                Ok(Answer::Sym(placed(symbol, CallPlaces::one_if(alloc, direct))))
            }
        }
    }

    #[tactic(auto, unfolding(crate::specs::AddressAnswers::symbol_answer))]
    fn symbol_answer<O: Orders>(
        &self,
        alloc: Global,
        orders: &mut O,
        units: &mut Units,
        parser: &mut ElfParser<'b>,
        addr: u64,
        opts: &FindSymOpts,
    ) -> Result<Answer<'b>>
        requires reads { Reads self.now units.old }
        requires parser { IsOfDebugFile (bundle_view self.now.bundle) parser.old }
        ensures value { Gives answer_view result
            (uncovered_read self.now units.old addr opts.now) }
        ensures keeps { Keeps self.now units.old units.new }
        ensures same { parser.new ≡ parser.old }
    {
        let answer = parser.find_sym(alloc, orders, addr, opts)?;
        self.with_place(alloc, orders, units, addr, opts, answer)
    }

    /// The answer of an address: by the function that covers it, else by a symbol of the debug file, whose parser is
    /// given. Refused by the first mark that the search meets.
    #[tactic(auto, unfolding(crate::specs::AddressAnswers::answer_in, crate::specs::AddressAnswers::answer_by))]
    pub fn answer<O: Orders>(
        &self,
        alloc: Global,
        orders: &mut O,
        units: &mut Units,
        parser: &mut ElfParser<'b>,
        addr: u64,
        opts: &FindSymOpts,
    ) -> Result<Answer<'b>>
        requires reads { Reads self.now units.old }
        requires parser { IsOfDebugFile (bundle_view self.now.bundle) parser.old }
        ensures value { Gives answer_view result (answer_read self.now units.old addr opts.now) }
        ensures keeps { Keeps self.now units.old units.new }
        ensures same { parser.new ≡ parser.old }
    {
        match units.find_function(alloc, orders, &self.dwarf, addr)? {
            Some(at) => self.function_answer(alloc, orders, units, addr, opts, at),
            None => self.symbol_answer(alloc, orders, units, parser, addr, opts),
        }
    }

    /// The answer of each address, in their order. Refused by the first mark that is met.
    #[tactic(auto, using(crate::proofs::ReaderSteps::keeps_same, crate::proofs::ReaderSteps::keeps_on))]
    pub fn answers<O: Orders>(
        &self,
        alloc: Global,
        orders: &mut O,
        units: &mut Units,
        parser: &mut ElfParser<'b>,
        addrs: &[u64],
        opts: &FindSymOpts,
    ) -> Result<Vec<Answer<'b>>>
        requires reads { Reads self.now units.old }
        requires parser { IsOfDebugFile (bundle_view self.now.bundle) parser.old }
        ensures value { Gives (λ v. map answer_view v.items) result
            (all_good (map (answers_read self.now units.old opts.now) addrs.now)) }
        ensures one_each { IfOk result (λ v. length v.items ≡ length addrs.now) }
        ensures keeps { Keeps self.now units.old units.new }
        ensures same { parser.new ≡ parser.old }
    {
        let mut answers = Vec::with_capacity(alloc, addrs.len())?;
        for addr in addrs {
            answers.push(self.answer(alloc, orders, units, parser, *addr, opts)?)?;
        }
        Ok(answers)
    }
}
