//! The search among ranges in their order.
ghost use Rattle.std.specs.Prelude.{◌≡◌, ℕ, ◌+◌, ◌*◌, ◌^◌, ◌-◌, ◌≤◌, ◌<◌, length, Option, Some};
ghost use Rattle.std.specs.List.{slice_get};
ghost use Rattle.blz_ranges.specs.Sorted.{IsOrdered, IsChain};
ghost use Rattle.blz_ranges.specs.Search.{is_below, is_behind, target_at, target_after, IsSplit, IsStart, IsFound, place_found};
ghost use Rattle.blz_ranges.specs.Skipping.{AreSkips, IsStepBack};
ghost use Rattle.blz_ranges.specs.declared.placed.Placed.{Placed};

use crate::skips::Skip;
use crate::span::Span;
use blz_bytes::{Counted, Steps};
use std::sync::ledger::Ledger;

/// A range in the order of group and begin, with its place in the list and the greatest end of its group up to it. Of
/// ranges that begin alike the earlier place stands later.
#[derive(Clone, Copy)]
pub struct Ordered {
    pub group: usize,
    pub span: Span,
    pub place: usize,
    pub reach: u64,
}

/// Where a search goes back from: a begin in a group, and of the ranges that begin there only those behind a place, if
/// that is asked.
#[derive(Clone, Copy)]
pub struct Target {
    pub group: usize,
    pub begin: u64,
    pub behind: Option<usize>,
}

impl Target {
    /// From the ranges of a group that begin at or below an address.
    pub fn at(group: usize, addr: u64) -> Target
        ensures { result ≡ target_at group addr }
    {
        Target {
            group,
            begin: addr,
            behind: None,
        }
    }

    /// The same, of those that come after a range of which the place and the begin are given.
    pub fn after(group: usize, addr: u64, place: usize, begin: u64) -> Target
        ensures { result ≡ target_after group addr place begin }
    {
        if begin <= addr {
            Target {
                group,
                begin,
                behind: Some(place),
            }
        } else {
            Target::at(group, addr)
        }
    }

    fn is_behind(&self, place: usize) -> bool
        ensures { result ≡ is_behind self.now.behind place }
    {
        match self.behind {
            Some(bound) => bound < place,
            None => true,
        }
    }
}

impl Ordered {
    /// Whether a search goes back from behind this range.
    fn is_below(&self, target: &Target) -> bool
        ensures { result ≡ is_below self.now target.now }
    {
        self.group < target.group
            || (self.group == target.group
                && (self.span.begin < target.begin
                    || (self.span.begin == target.begin && target.is_behind(self.place))))
    }
}

/// The place of a range that was found.
pub fn place_found(best: &Option<Ordered>) -> Option<usize>
    ensures { result ≡ place_found best.now }
{
    match best {
        Some(found) => Some(found.place),
        None => None,
    }
}

/// How many entries a search goes back over.
pub fn split<L: Ledger>(order: &Counted<Ordered>, target: &Target, steps: &mut Steps<L>) -> usize
    requires { IsOrdered order.now }
    ensures place { IsSplit order.now target.now result }
    ensures cost { 2 ^ (steps.new - steps.old) ≤ 2 * length order.now + 1 }
    ensures later { steps.old ≤ steps.new }
{
    let mut low = 0;
    let mut high = order.len();
    while low < high {
        let middle = low + (high - low) / 2;
        let Some(entry) = order.look(middle, steps) else {
            return low;
        };
        if entry.is_below(target) {
            low = middle + 1;
        } else {
            high = middle;
        }
    }
    low
}

/// Where the search goes on before an entry that ends too low.
fn step_back<L: Ledger>(skips: &Counted<Skip>, at: usize, addr: u64, steps: &mut Steps<L>) -> usize
    requires within { at < length skips.now }
    requires up { (s : Skip) → slice_get skips.now at ≡ Some s → s.to ≤ at }
    ensures back { IsStepBack skips.now at addr result }
    ensures later { steps.old ≤ steps.new }
{
    match skips.look(at, steps) {
        Some(skip) => if skip.top <= addr { skip.to } else { at },
        None => at,
    }
}

/// Of the entries of a group before an index the last that ends above an address. It goes back no further than to an
/// entry whose group ends below the address.
pub fn last_before<L: Ledger>(
    order: &Counted<Ordered>,
    skips: &Counted<Skip>,
    group: usize,
    addr: u64,
    high: usize,
    steps: &mut Steps<L>,
) -> Option<Ordered>
    requires ordered { IsOrdered order.now }
    requires skips { AreSkips order.now skips.now }
    requires within { high ≤ length order.now }
    ensures best { (after : Option Placed) → IsStart order.now group addr after high
        → IsFound order.now group addr after result }
    ensures cost { IsChain order.now → steps.new ≤ steps.old + 1 }
    ensures later { steps.old ≤ steps.new }
{
    let mut at = high;
    while at > 0 {
        let Some(entry) = order.look(at - 1, steps) else {
            return None;
        };
        if entry.group != group {
            return None;
        }
        if entry.reach <= addr {
            return None;
        }
        if addr < entry.span.end {
            return Some(entry);
        }
        at = step_back(skips, at - 1, addr, steps);
    }
    None
}
