//! The answer of an address from what was prepared, without memory.
ghost use Rattle.std.specs.Prelude.{◌≡◌, ◌≤◌, ◌-◌, true, false};
ghost use Rattle.blz_model.specs.Part.{Exactly};
ghost use Rattle.blz_elf.specs.AnswerView.{answer_view, resolved_view};
ghost use Rattle.blz_elf.specs.Asked.{asks_code_info, asks_inlined_fns};
ghost use Rattle.blz_index.specs.UnitsWarm.{units_prepared, functions_kept};
ghost use Rattle.blz_reader.specs.SiteViews.{site_view};
ghost use Rattle.blz_bundle.specs.BundleViews.{bundle_view};
ghost use Rattle.blz_resolver.specs.Looks.{LooksFewAt};
ghost use Rattle.blz_resolver.specs.BookAnswers.{symbol_read, site_read, covered_read, placed_read, uncovered_read, answer_read};
ghost use Rattle.blz_resolver.specs.Reading.{book_of, Reads};
ghost use Rattle.blz_resolver.specs.Sources.{IsOfDebugFile};

use crate::answers::answering::placed;
use crate::answers::book_reader::BookReader;
use crate::answers::call_places::CallPlaces;
use crate::functions::function::{name_text, symbol_of};
use blz_bytes::Steps;
use blz_elf::{Answer, ElfParser, FindSymOpts, ResolvedSym};
use blz_error::Result;
use blz_index::Units;
use blz_line::Location;
use std::alloc::Global;
use std::sync::ledger::Ledger;

impl<'b> BookReader<'_, 'b> {
    #[tactic(auto, unfolding(crate::specs::AddressAnswers::function_symbol))]
    fn prepared_symbol(
        &self,
        alloc: Global,
        units: &Units,
        at: (usize, usize),
    ) -> Result<ResolvedSym<'b>>
        requires reads { Reads self.now units.now }
        requires is_prepared { units_prepared units.now ≡ true }
        requires kept { functions_kept units.now at.0 ≡ true }
        ensures { Exactly resolved_view result (symbol_read self.now units.now at) }
    {
        let function = self.function_numbered(units, at)?;
        let name = name_text(&self.dwarf.texts, function.name)?;
        let lang = units.language_prepared(at.0)?;
        let module_name = self.bundle.module;
        Ok(symbol_of(alloc, module_name, name, &function, lang))
    }

    #[tactic(auto, unfolding(crate::specs::AddressAnswers::direct_site))]
    fn prepared_site<L: Ledger>(
        &self,
        units: &Units,
        addr: u64,
        opts: &FindSymOpts,
        steps: &mut Steps<L>,
    ) -> Result<Option<Location<'b>>>
        requires reads { Reads self.now units.now }
        requires is_prepared { units_prepared units.now ≡ true }
        ensures value { Exactly site_view result (site_read self.now units.now addr opts.now) }
        ensures cost { asks_code_info opts.now ≡ false → steps.new ≡ steps.old }
        ensures later { steps.old ≤ steps.new }
    {
        if !opts.code_info() {
            return Ok(None);
        }
        units.find_location_prepared(&self.dwarf.texts, addr, steps)
    }

    #[tactic(auto, unfolding(crate::specs::AddressAnswers::function_answer))]
    fn prepared_function<L: Ledger>(
        &self,
        alloc: Global,
        units: &Units,
        addr: u64,
        opts: &FindSymOpts,
        at: (usize, usize),
        steps: &mut Steps<L>,
    ) -> Result<Answer<'b>>
        requires reads { Reads self.now units.now }
        requires is_prepared { units_prepared units.now ≡ true }
        requires kept { functions_kept units.now at.0 ≡ true }
        requires opts { asks_inlined_fns opts.now ≡ false }
        ensures value { Exactly answer_view result
            (covered_read self.now units.now addr opts.now at) }
        ensures cost { asks_code_info opts.now ≡ false → steps.new ≡ steps.old }
        ensures later { steps.old ≤ steps.new }
    {
        let symbol = self.prepared_symbol(alloc, units, at)?;
        let direct = self.prepared_site(units, addr, opts, steps)?;
        Ok(Answer::Sym(placed(symbol, CallPlaces::one_if(alloc, direct))))
    }

    #[tactic(auto, unfolding(crate::specs::AddressAnswers::with_place))]
    fn prepared_place<L: Ledger>(
        &self,
        alloc: Global,
        units: &Units,
        addr: u64,
        opts: &FindSymOpts,
        answer: Answer<'b>,
        steps: &mut Steps<L>,
    ) -> Result<Answer<'b>>
        requires reads { Reads self.now units.now }
        requires is_prepared { units_prepared units.now ≡ true }
        ensures value { Exactly answer_view result
            (placed_read self.now units.now addr opts.now (answer_view answer.entry)) }
        ensures later { steps.old ≤ steps.new }
    {
        match answer {
            Answer::NoSym(reason) => Ok(Answer::NoSym(reason)),
            Answer::Sym(symbol) => {
                let direct = self.prepared_site(units, addr, opts, steps)?;
                Ok(Answer::Sym(placed(symbol, CallPlaces::one_if(alloc, direct))))
            }
        }
    }

    #[tactic(auto, unfolding(crate::specs::AddressAnswers::symbol_answer))]
    fn symbol_prepared<L: Ledger>(
        &self,
        alloc: Global,
        units: &Units,
        parser: &ElfParser<'b>,
        addr: u64,
        opts: &FindSymOpts,
        steps: &mut Steps<L>,
    ) -> Result<Answer<'b>>
        requires reads { Reads self.now units.now }
        requires is_prepared { units_prepared units.now ≡ true }
        requires parser { IsOfDebugFile (bundle_view self.now.bundle) parser.now }
        requires symbols { parser.now.prepared ≡ true }
        ensures value { Exactly answer_view result
            (uncovered_read self.now units.now addr opts.now) }
        ensures later { steps.old ≤ steps.new }
    {
        let answer = parser.find_sym_prepared(addr)?;
        self.prepared_place(alloc, units, addr, opts, answer, steps)
    }

    /// The answer of an address without its inlined calls, as `answer` has it, from what is kept: it takes no memory.
    #[tactic(auto, unfolding(crate::specs::AddressAnswers::answer_in, crate::specs::AddressAnswers::answer_by))]
    pub fn answer_prepared<L: Ledger>(
        &self,
        alloc: Global,
        units: &Units,
        parser: &ElfParser<'b>,
        addr: u64,
        opts: &FindSymOpts,
        steps: &mut Steps<L>,
    ) -> Result<Answer<'b>>
        requires reads { Reads self.now units.now }
        requires is_prepared { units_prepared units.now ≡ true }
        requires parser { IsOfDebugFile (bundle_view self.now.bundle) parser.now }
        requires symbols { parser.now.prepared ≡ true }
        requires opts { asks_inlined_fns opts.now ≡ false }
        ensures value { Exactly answer_view result (answer_read self.now units.now addr opts.now) }
        ensures cost { asks_code_info opts.now ≡ false
            → LooksFewAt (book_of self.now units.now) units.now addr (steps.new - steps.old) }
        ensures later { steps.old ≤ steps.new }
    {
        match units.find_function_prepared(addr, steps)? {
            Some(at) => self.prepared_function(alloc, units, addr, opts, at, steps),
            None => self.symbol_prepared(alloc, units, parser, addr, opts, steps),
        }
    }
}
