//! An index of ranges in groups.
ghost use Rattle.std.specs.Prelude.{◌≡◌, ℕ, ◌+◌, ◌*◌, ◌^◌, ◌-◌, ◌<◌, ◌≤◌, true, false, ◌&&◌, List, length, Option, None, Some, IfOk, if◌then◌else◌};
ghost use Rattle.std.specs.List.{slice_get};
ghost use Rattle.blz_bytes.specs.declared.orders.Key.{Key};
ghost use Rattle.blz_ranges.specs.Best.{best_by, better, passes};
ghost use Rattle.blz_ranges.specs.Groups.{best_in, next_in, in_group, spans_of, group_is, AreApartInGroups};
ghost use Rattle.blz_ranges.specs.Keyed.{AreKeysOf, IsAccepted};
ghost use Rattle.blz_ranges.specs.Ranges.{GroupedRanges, IsIndexIf};

use crate::grouped::{Grouped, first_places, search_order};
use crate::ordered::{Ordered, Target, last_before, place_found, split};
use crate::placed::{Placed, passes, place_of};
use crate::skips::{Skip, skips_of};
use crate::span::Span;
use blz_bytes::{Counted, Key, Orders, Steps, check_pairs};
use std::alloc::{AllocError, Global};
use std::marker::Model;
use std::sync::ledger::Ledger;

/// Ranges in groups, and where their order was accepted the same in that order.
pub struct GroupIndex {
    list: Counted<Grouped>,
    order: Counted<Ordered>,
    skips: Counted<Skip>,
    ordered: bool,
}

// Written out, so that letting go of one is a call, which is proved once, and not a walk through it at each place.
impl Drop for GroupIndex {
    fn drop(self) {
        let GroupIndex {
            list: _,
            order: _,
            skips: _,
            ordered: _,
        } = self;
    }
}

impl Model for GroupIndex {
    ghost Value = { GroupedRanges };

    ghost view = { λ x. record { list = x.list; ordered = x.ordered } };

    ghost invariant = { λ x. IsIndexIf x.list x.order x.skips x.ordered };
}

/// The range in front, where it is of the group and passes, and the best of those behind it.
fn preferred(
    range: &Grouped,
    place: usize,
    best: Option<Placed>,
    group: usize,
    addr: u64,
    after: &Option<Placed>,
) -> Option<Placed>
    ensures { result
        ≡ (if (group_is group (Some range.now) && passes addr after.now place range.now.span)
        then better (record { place = place; span = range.now.span }) best else best) }
{
    if range.group == group && passes(addr, after, place, &range.span) {
        Placed {
            place,
            span: range.span,
        }
        .or_better(best)
    } else {
        best
    }
}

/// The best range of a group that passes, of a list in any order.
#[tactic(auto, unfolding(crate::specs::Best::best_by))]
fn scan<L: Ledger>(
    list: &Counted<Grouped>,
    group: usize,
    addr: u64,
    after: &Option<Placed>,
    steps: &mut Steps<L>,
) -> Option<Placed>
    ensures best { result
        ≡ best_by (in_group list.now group (passes addr after.now)) 0 (spans_of list.now) }
    ensures later { steps.old ≤ steps.new }
{
    let mut best: Option<Placed> = None;
    let mut at = list.len();
    while at > 0 {
        at -= 1;
        let Some(range) = list.look(at, steps) else {
            return best;
        };
        best = preferred(&range, at, best, group, addr, after);
    }
    best
}

impl GroupIndex {
    /// Asks for an order by the keys, and keeps it where it passes the check.
    pub fn build<O: Orders>(
        alloc: Global,
        orders: &mut O,
        list: Vec<Grouped>,
        keys: &[Key],
    ) -> Result<GroupIndex, AllocError>
        requires { AreKeysOf keys.now list.items }
        ensures list { IfOk result (λ x. x.list ≡ list.items) }
        ensures accepted { IfOk result (λ x. IsAccepted O.pair_places keys.now x.ordered) }
    {
        let mut places = first_places(alloc, keys.len())?;
        orders.by_pair(keys, places.as_mut_slice());
        let ordered = check_pairs(keys, places.as_slice());
        let order = search_order(alloc, list.as_slice(), keys, places.as_slice(), ordered)?;
        let skips = skips_of(alloc, order.as_slice())?;
        Ok(GroupIndex {
            list: Counted::new(list),
            order: Counted::new(order),
            skips: Counted::new(skips),
            ordered,
        })
    }

    /// Whether the order was accepted.
    pub fn is_ordered(&self) -> bool
        ensures { result ≡ self.now.ordered }
    {
        self.ordered
    }

    /// The range at a place, for one step.
    pub fn range<L: Ledger>(&self, place: usize, steps: &mut Steps<L>) -> Option<Grouped>
        ensures range { result ≡ slice_get self.now.list place }
        ensures cost { steps.new ≡ steps.old + 1 }
    {
        self.list.look(place, steps)
    }

    /// Of the ranges of a group that cover an address the one with the greatest begin, then the earlier place.
    pub fn best_in<L: Ledger>(&self, group: usize, addr: u64, steps: &mut Steps<L>) -> Option<usize>
        ensures best { result ≡ best_in self.now.list group addr }
        ensures cost { self.now.ordered ≡ true → AreApartInGroups self.now.list
            → 2 ^ (steps.new - steps.old) ≤ 4 * (2 * length self.now.list + 1) }
        ensures later { steps.old ≤ steps.new }
    {
        if self.ordered {
            let high = split(&self.order, &Target::at(group, addr), steps);
            place_found(&last_before(&self.order, &self.skips, group, addr, high, steps))
        } else {
            place_of(&scan(&self.list, group, addr, &None, steps))
        }
    }

    /// The next range of a group that covers an address, after the one at a place.
    pub fn next_in<L: Ledger>(
        &self,
        group: usize,
        addr: u64,
        bound: usize,
        steps: &mut Steps<L>,
    ) -> Option<usize>
        requires { bound < length self.now.list }
        ensures next { result ≡ next_in self.now.list group addr bound }
        ensures later { steps.old ≤ steps.new }
    {
        let Some(range) = self.list.look(bound, steps) else {
            return None;
        };
        let span = range.span;
        let after = Some(Placed { place: bound, span });
        if self.ordered {
            let target = Target::after(group, addr, bound, span.begin);
            let high = split(&self.order, &target, steps);
            place_found(&last_before(&self.order, &self.skips, group, addr, high, steps))
        } else {
            place_of(&scan(&self.list, group, addr, &after, steps))
        }
    }
}
