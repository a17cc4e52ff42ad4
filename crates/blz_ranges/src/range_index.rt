//! An index of ranges.
ghost use Rattle.std.specs.Prelude.{◌≡◌, ℕ, ◌+◌, ◌*◌, ◌^◌, ◌-◌, ◌<◌, ◌≤◌, true, List, length, map, Option, None, Some, IfOk};
ghost use Rattle.std.specs.List.{slice_get};
ghost use Rattle.blz_ranges.specs.Best.{best, next};
ghost use Rattle.blz_ranges.specs.Groups.{AreApart, spans_of};
ghost use Rattle.blz_ranges.specs.Keyed.{IsAccepted, begin_key};
ghost use Rattle.blz_ranges.specs.Ranges.{Ranges, AllInGroup};

use crate::group_index::GroupIndex;
use crate::grouped::{begin_keys, one_group};
use crate::span::Span;
use blz_bytes::{Orders, Steps};
use std::alloc::{AllocError, Global};
use std::marker::{Brand, Model};
use std::sync::ledger::{Blank, Ledger};

/// A list of ranges, which may overlap, and where its order was accepted an index of it.
#[derive(Drop)]
pub struct RangeIndex {
    index: GroupIndex,
}

impl Model for RangeIndex {
    ghost Value = { Ranges };

    ghost view = { λ x. record { spans = spans_of x.index.list; ordered = x.index.ordered } };

    ghost invariant = { λ x. AllInGroup 0 x.index.list };
}

impl RangeIndex {
    /// Asks for an order by the begins, and keeps it where it passes the check. Only want of memory is refused.
    pub fn build<O: Orders>(
        alloc: Global,
        orders: &mut O,
        entries: Vec<Span>,
    ) -> Result<RangeIndex, AllocError>
        ensures spans { IfOk result (λ x. x.spans ≡ entries.items) }
        ensures accepted { IfOk result
            (λ x. IsAccepted O.pair_places (map begin_key entries.items) x.ordered) }
    {
        let keys = begin_keys(alloc, entries.as_slice())?;
        let list = one_group(alloc, entries.as_slice())?;
        let index = GroupIndex::build(alloc, orders, list, keys.as_slice())?;
        Ok(RangeIndex { index })
    }

    /// Whether the order was accepted.
    pub fn is_ordered(&self) -> bool
        ensures { result ≡ self.now.ordered }
    {
        self.index.is_ordered()
    }

    /// The range at a place, for one step.
    pub fn span<L: Ledger>(&self, place: usize, steps: &mut Steps<L>) -> Option<Span>
        ensures span { result ≡ slice_get self.now.spans place }
        ensures cost { steps.new ≡ steps.old + 1 }
    {
        match self.index.range(place, steps) {
            Some(range) => Some(range.span),
            None => None,
        }
    }

    /// Of the ranges that cover an address the one with the greatest begin, then the earlier place.
    pub fn best_at<L: Ledger>(&self, addr: u64, steps: &mut Steps<L>) -> Option<usize>
        ensures best { result ≡ best self.now.spans addr }
        ensures cost { self.now.ordered ≡ true → AreApart self.now.spans
            → 2 ^ (steps.new - steps.old) ≤ 4 * (2 * length self.now.spans + 1) }
        ensures later { steps.old ≤ steps.new }
    {
        self.index.best_in(0, addr, steps)
    }

    /// The next range that covers an address, after the one at a place.
    pub fn next_below<L: Ledger>(
        &self,
        addr: u64,
        bound: usize,
        steps: &mut Steps<L>,
    ) -> Option<usize>
        requires { bound < length self.now.spans }
        ensures next { result ≡ next self.now.spans addr bound }
        ensures later { steps.old ≤ steps.new }
    {
        self.index.next_in(0, addr, bound, steps)
    }

    fn best_from<L: Ledger>(&self, addr: u64, blank: Blank) -> Option<usize>
        requires name { blank.name ≡ L.name }
        requires parts { blank.parts ≡ L.parts }
        requires some { 0 < blank.parts }
        ensures { result ≡ best self.now.spans addr }
    {
        let mut steps: Steps<L> = Steps::new(blank);
        self.best_at(addr, &mut steps)
    }

    /// The place of the best range that covers an address, for a caller that counts no looks.
    pub fn find(&self, addr: u64) -> Option<usize>
        ensures { result ≡ best self.now.spans addr }
    {
        self.best_from::<Brand>(addr, Blank::new(1))
    }
}
