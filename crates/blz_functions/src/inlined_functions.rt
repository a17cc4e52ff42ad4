//! The inlined calls of a function.
ghost use Rattle.std.specs.Prelude.{◌≡◌, ◌+◌, ◌*◌, ◌^◌, ◌-◌, ◌<◌, ◌≤◌, true, List, length, map, Option, IfOk};
ghost use Rattle.blz_functions.specs.Chain.{at_depth, chain, owner_found, ranges_of, TreeCall, IsTree, IsNested, IsPath};
ghost use Rattle.blz_ranges.specs.Groups.{AreApartInGroups};
ghost use Rattle.blz_ranges.specs.Keyed.{IsAccepted, group_key};
ghost use Rattle.blz_ranges.specs.Owned.{owned, items_of};
ghost use Rattle.blz_functions.specs.FunctionRanges.{CallRanges};

use blz_bytes::{Orders, Steps};
use blz_entry::StrPlace;
use blz_ranges::{GroupIndex, Grouped, fitted, group_keys, number_at};
use std::alloc::{AllocError, Global};
use std::marker::{Brand, Model};
use std::sync::ledger::{Blank, Ledger};

/// An inlined call (DWARF 5 section 3.3.8).
#[derive(Clone, Copy)]
pub struct InlinedFunction {
    /// The linkage name of the function that is inlined, and else its name.
    pub name: Option<StrPlace>,
    /// The file of the call, as a number of the unit's line table.
    pub call_file: Option<u64>,
    /// The line of the call, and else 0.
    pub call_line: u32,
    /// The column of the call, and else 0.
    pub call_column: u32,
}

/// The inlined calls of a function, with their ranges in groups by depth.
#[derive(Drop)]
pub struct InlinedFunctions {
    calls: Vec<InlinedFunction>,
    index: GroupIndex,
    owners: Vec<usize>,
}

impl Model for InlinedFunctions {
    ghost Value = { CallRanges };

    ghost view = { λ x. record { calls = x.calls.items; ranges = owned x.index.list x.owners.items; ordered = x.index.ordered } };

    ghost invariant = { λ x. length x.index.list ≡ length x.owners.items };
}

impl InlinedFunctions {
    /// The calls, and their ranges by depth, each with the number of its call.
    pub(crate) fn build<O: Orders>(
        alloc: Global,
        orders: &mut O,
        calls: Vec<InlinedFunction>,
        ranges: Vec<Grouped>,
        owners: Vec<usize>,
    ) -> Result<InlinedFunctions, AllocError>
        requires { length ranges.items ≡ length owners.items }
        ensures calls { IfOk result (λ x. x.calls ≡ calls.items) }
        ensures ranges { IfOk result (λ x. x.ranges ≡ owned ranges.items owners.items) }
        ensures accepted { IfOk result
            (λ x. IsAccepted O.pair_places (map group_key ranges.items) x.ordered) }
    {
        let keys = group_keys(alloc, ranges.as_slice())?;
        let index = GroupIndex::build(alloc, orders, fitted(ranges), keys.as_slice())?;
        Ok(InlinedFunctions {
            calls: fitted(calls),
            index,
            owners: fitted(owners),
        })
    }

    /// The calls in file order.
    pub fn calls(&self) -> &[InlinedFunction]
        ensures { result.now ≡ self.now.calls }
    {
        self.calls.as_slice()
    }

    /// Whether the order of the ranges was accepted.
    pub fn is_ordered(&self) -> bool
        ensures { result ≡ self.now.ordered }
    {
        self.index.is_ordered()
    }

    /// The call of a depth whose range is the best of those that cover an address.
    pub fn at_depth<L: Ledger>(
        &self,
        addr: u64,
        depth: usize,
        steps: &mut Steps<L>,
    ) -> Option<usize>
        ensures best { result ≡ at_depth self.now.ranges addr depth }
        ensures cost { self.now.ordered ≡ true → AreApartInGroups (items_of self.now.ranges)
            → 2 ^ (steps.new - steps.old) ≤ 4 * (2 * length self.now.ranges + 1) }
        ensures later { steps.old ≤ steps.new }
    {
        let place = self.index.best_in(depth, addr, steps);
        self.owner(place)
    }

    fn owner(&self, place: Option<usize>) -> Option<usize>
        ensures { result ≡ owner_found self.now.ranges place }
    {
        match place {
            Some(place) => number_at(self.owners.as_slice(), place),
            None => None,
        }
    }

    fn count(&self) -> usize
        ensures { result ≡ length self.now.calls }
    {
        self.calls.len()
    }

    fn chain<L: Ledger>(
        &self,
        alloc: Global,
        addr: u64,
        blank: Blank,
    ) -> Result<Vec<usize>, AllocError>
        requires name { blank.name ≡ L.name }
        requires parts { blank.parts ≡ L.parts }
        requires some { 0 < blank.parts }
        ensures { IfOk result (λ v. v.items ≡ chain self.now.ranges (length self.now.calls) addr) }
    {
        let mut steps: Steps<L> = Steps::new(blank);
        let mut chain = Vec::new(alloc);
        let limit = self.count();
        for depth in 0..limit {
            match self.at_depth(addr, depth, &mut steps) {
                Some(call) => chain.push(call)?,
                None => return Ok(chain),
            }
        }
        Ok(chain)
    }

    /// The calls that cover an address, the outermost first: those of depth 0, 1, 2 and so on, up to the first depth
    /// without one. Only want of memory is refused.
    pub fn find_inlined_functions(&self, alloc: Global, addr: u64) -> Result<Vec<usize>, AllocError>
        ensures chain { IfOk result
            (λ v. v.items ≡ chain self.now.ranges (length self.now.calls) addr) }
        ensures path { IfOk result (λ v. (tree : List TreeCall)
            → self.now.ranges ≡ ranges_of 0 tree → length self.now.calls ≡ length tree
            → IsTree tree → IsNested tree → IsPath tree addr v.items) }
    {
        let chain = self.chain::<Brand>(alloc, addr, Blank::new(1))?;
        Ok(chain)
    }
}
