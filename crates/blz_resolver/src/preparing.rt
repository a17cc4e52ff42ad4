//! Reading all of a bundle before it is asked.
ghost use Rattle.std.specs.Prelude.{◌≡◌, ◌<◌, ◌≤◌, ◌-◌, ℕ, true, false, is_some, IfOk, IfErr};
ghost use Rattle.blz_model.specs.Part.{Exactly};
ghost use Rattle.blz_elf.specs.AnswerView.{answer_view};
ghost use Rattle.blz_elf.specs.Asked.{asks_code_info, asks_inlined_fns};
ghost use Rattle.blz_error.specs.declared.kind.ErrorKind.TheVariants.{OutOfMemory};
ghost use Rattle.blz_resolver.specs.AddressAnswers.{answer_of};
ghost use Rattle.blz_bundle.specs.BundleViews.{bundle_view};
ghost use Rattle.blz_resolver.specs.FormatKinds.{IsFormatKind};
ghost use Rattle.blz_resolver.specs.Looks.{LooksFewIf};
ghost use Rattle.blz_resolver.specs.Resolver.{ArePrepared, HasBookIf, Grows, UnitsGrowIf, has_debug, lines_in, rows_filled, units_in};
ghost use Rattle.blz_resolver.specs.UnitRowsRead.{unit_count_of};

use crate::ElfResolver;
use crate::debug::debug_info::DebugInfo;
use blz_bundle::Bundle;
use blz_bytes::{Orders, Steps};
use blz_elf::{Answer, FindSymOpts};
use blz_error::Result;
use std::alloc::Global;
use std::sync::ledger::Ledger;

fn prepare_units<'b, O: Orders>(
    alloc: Global,
    orders: &mut O,
    bundle: &Bundle<'b>,
    debug: &mut Option<DebugInfo<'b>>,
) -> Result<()>
    requires { HasBookIf (bundle_view bundle.now) debug.old }
    ensures has { HasBookIf (bundle_view bundle.now) debug.new }
    ensures grows { UnitsGrowIf O.pair_places (units_in debug.old) (units_in debug.new) }
    ensures is_prepared { IfOk result (λ _. ArePrepared debug.new) }
    ensures want { IfErr result (λ e. e.kind ≡ OutOfMemory) }
    ensures stays { ArePrepared debug.old → ArePrepared debug.new }
    ensures rows { IfOk result
        (λ _. (unit : ℕ) → unit < unit_count_of (bundle_view bundle.now) (is_some debug.new)
        → lines_in (units_in debug.new) unit ≡ true) }
{
    match debug {
        Some(info) => info.prepare(alloc, orders, bundle),
        None => Ok(()),
    }
}

impl<'b> ElfResolver<'b> {
    /// Reads all of the bundle, each part as far as it can be read, for `find_sym_prepared` and `filled_unit_rows`. Only
    /// OutOfMemory is refused.
    pub fn prepare<O: Orders>(&mut self, alloc: Global, orders: &mut O) -> Result<()>
        ensures is_prepared { IfOk result (λ _. self.new.prepared ≡ true) }
        ensures refused { IfErr result
            (λ e. (e.kind ≡ OutOfMemory) × (self.new.prepared ≡ self.old.prepared)) }
        ensures rows { IfOk result
            (λ _. (unit : ℕ) → unit < unit_count_of self.new.images (has_debug self.new)
            → rows_filled self.new unit ≡ true) }
        ensures grows { Grows O.pair_places self.old self.new }
    {
        prepare_units(alloc, orders, &self.bundle, &mut self.debug)?;
        self.parser.prepare(alloc, orders)?;
        self.prepared = true;
        Ok(())
    }

    /// Whether `prepare` has read all.
    pub fn is_prepared(&self) -> bool
        ensures { result ≡ self.now.prepared }
    {
        self.prepared
    }

    /// The symbol of an address without its inlined calls, as `find_sym` has it, from what was prepared: it takes no
    /// memory. Without the place in the sources it looks at no more entries than two halvings need, where a function
    /// answers, no two ranges share an address and both orders were accepted.
    pub fn find_sym_prepared<L: Ledger>(
        &self,
        addr: u64,
        opts: &FindSymOpts,
        steps: &mut Steps<L>,
    ) -> Result<Answer<'b>>
        requires is_prepared { self.now.prepared ≡ true }
        requires opts { asks_inlined_fns opts.now ≡ false }
        ensures value { Exactly answer_view result
            (answer_of self.now.images (has_debug self.now) addr opts.now) }
        ensures kinds { IfErr result (λ e. IsFormatKind e.kind) }
        ensures cost { asks_code_info opts.now ≡ false
            → LooksFewIf self.now.images self.now.units addr (steps.new - steps.old) }
        ensures later { steps.old ≤ steps.new }
    {
        match &self.debug {
            Some(info) => {
                info.find_sym_prepared(self.alloc, &self.bundle, &self.parser, addr, opts, steps)
            }
            None => self.parser.find_sym_prepared(addr),
        }
    }
}
