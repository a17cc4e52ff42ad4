//! Ranges that belong to something.
ghost use Rattle.std.specs.Prelude.{◌≡◌, ℕ, ◌+◌, ◌*◌, ◌^◌, ◌-◌, ◌<◌, ◌≤◌, true, List, length, map, Option, IfOk};
ghost use Rattle.std.specs.List.{slice_get};
ghost use Rattle.blz_ranges.specs.Best.{best, next};
ghost use Rattle.blz_ranges.specs.Groups.{AreApart};
ghost use Rattle.blz_ranges.specs.Keyed.{IsAccepted, begin_key};
ghost use Rattle.blz_ranges.specs.Owned.{owned, items_of, owner_at};
ghost use Rattle.blz_ranges.specs.Ranges.{OwnedRanges, best_owner};

use crate::range_index::RangeIndex;
use crate::span::Span;
use blz_bytes::{Orders, Steps};
use std::alloc::{AllocError, Global};
use std::marker::Model;
use std::sync::ledger::Ledger;

/// A list of ranges, each with the number of what it belongs to.
#[derive(Drop)]
pub struct OwnedRanges {
    index: RangeIndex,
    owners: Vec<usize>,
}

impl Model for OwnedRanges {
    ghost Value = { OwnedRanges };

    ghost view = { λ x. record { ranges = owned x.index.spans x.owners.items; ordered = x.index.ordered } };

    ghost invariant = { λ x. length x.index.spans ≡ length x.owners.items };
}

/// The number at a place of a list.
pub fn number_at(numbers: &[usize], place: usize) -> Option<usize>
    ensures { result ≡ slice_get numbers.now place }
{
    numbers.get(place).copied()
}

/// A list that is kept, without room behind its items.
pub fn fitted<T>(list: Vec<T>) -> Vec<T>
    ensures { result.items ≡ list.items }
{
    let mut list = list;
    list.shrink_to_fit();
    list
}

impl OwnedRanges {
    /// Asks for an order by the begins, and keeps it where it passes the check. Only want of memory is refused.
    pub fn build<O: Orders>(
        alloc: Global,
        orders: &mut O,
        spans: Vec<Span>,
        owners: Vec<usize>,
    ) -> Result<OwnedRanges, AllocError>
        requires { length spans.items ≡ length owners.items }
        ensures ranges { IfOk result (λ x. x.ranges ≡ owned spans.items owners.items) }
        ensures accepted { IfOk result
            (λ x. IsAccepted O.pair_places (map begin_key spans.items) x.ordered) }
    {
        let index = RangeIndex::build(alloc, orders, spans)?;
        let owners = fitted(owners);
        Ok(OwnedRanges { index, owners })
    }

    /// Whether the order was accepted.
    pub fn is_ordered(&self) -> bool
        ensures { result ≡ self.now.ordered }
    {
        self.index.is_ordered()
    }

    /// What the range at a place belongs to.
    pub fn owner(&self, place: usize) -> Option<usize>
        ensures { result ≡ owner_at self.now.ranges place }
    {
        number_at(self.owners.as_slice(), place)
    }

    /// The place of the best range that covers an address.
    pub fn best_at<L: Ledger>(&self, addr: u64, steps: &mut Steps<L>) -> Option<usize>
        ensures best { result ≡ best (items_of self.now.ranges) addr }
        ensures cost { self.now.ordered ≡ true → AreApart (items_of self.now.ranges)
            → 2 ^ (steps.new - steps.old) ≤ 4 * (2 * length self.now.ranges + 1) }
        ensures later { steps.old ≤ steps.new }
    {
        self.index.best_at(addr, steps)
    }

    /// The place of the next range that covers an address, after the one at a place.
    pub fn next_below<L: Ledger>(
        &self,
        addr: u64,
        bound: usize,
        steps: &mut Steps<L>,
    ) -> Option<usize>
        requires { bound < length self.now.ranges }
        ensures next { result ≡ next (items_of self.now.ranges) addr bound }
        ensures later { steps.old ≤ steps.new }
    {
        self.index.next_below(addr, bound, steps)
    }

    /// What the best range that covers an address belongs to, for a caller that counts no looks.
    pub fn find(&self, addr: u64) -> Option<usize>
        ensures { result ≡ best_owner self.now.ranges addr }
    {
        match self.index.find(addr) {
            Some(place) => self.owner(place),
            None => None,
        }
    }
}
