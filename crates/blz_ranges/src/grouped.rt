//! Ranges in groups.
ghost use Rattle.std.specs.Prelude.{◌≡◌, true, List, map, Option, IfOk, ◌==◌, ◌&&◌};
ghost use Rattle.std.specs.List.{slice_get};
ghost use Rattle.blz_bytes.specs.ToldPlaces.{counting};
ghost use Rattle.blz_ranges.specs.Groups.{grouped, grouped_at, in_group};
ghost use Rattle.blz_ranges.specs.Best.{passes};
ghost use Rattle.blz_bytes.specs.PairOrder.{IsOrder};
ghost use Rattle.blz_ranges.specs.Keyed.{AreKeysOf, begin_key, group_key};
ghost use Rattle.blz_ranges.specs.Sorted.{reach_on, entry_of, in_order, IsIndexOf};

use crate::ordered::Ordered;
use crate::span::Span;
use crate::turned::turned;
use blz_bytes::Key;
use std::alloc::{AllocError, Global};

/// A range of a group: only ranges of one group are weighed against one another.
#[derive(Clone, Copy)]
pub struct Grouped {
    pub group: usize,
    pub span: Span,
}

impl Grouped {
    /// The greatest end of a group with this range, where a reach of another group ends.
    fn reach_on(&self, group: usize, reach: u64) -> u64
        ensures { result ≡ reach_on group reach self.now }
    {
        if self.group == group {
            reach.max(self.span.end)
        } else {
            self.span.end
        }
    }

    fn entry(&self, place: usize, reach: u64) -> Ordered
        ensures { result ≡ entry_of self.now place reach }
    {
        Ordered {
            group: self.group,
            span: self.span,
            place,
            reach,
        }
    }
}

/// The ranges as those of group 0.
pub fn one_group(alloc: Global, spans: &[Span]) -> Result<Vec<Grouped>, AllocError>
    ensures { IfOk result (λ v. v.items ≡ map (grouped 0) spans.now) }
{
    spans
        .iter()
        .map(|span| Grouped {
            group: 0,
            span: *span,
        })
        .collect(alloc)
}

/// Keys by the begins.
pub fn begin_keys(alloc: Global, spans: &[Span]) -> Result<Vec<Key>, AllocError>
    ensures { IfOk result (λ v. v.items ≡ map begin_key spans.now) }
{
    spans
        .iter()
        .map(|span| Key {
            first: span.begin,
            second: 0,
        })
        .collect(alloc)
}

/// Keys by the groups, and by the begins within each.
pub fn group_keys(alloc: Global, list: &[Grouped]) -> Result<Vec<Key>, AllocError>
    ensures { IfOk result (λ v. v.items ≡ map group_key list.now) }
{
    list.iter()
        .map(|range| Key {
            first: range.group as u64,
            second: range.span.begin,
        })
        .collect(alloc)
}

/// The places of a list as they stand.
pub fn first_places(alloc: Global, count: usize) -> Result<Vec<usize>, AllocError>
    ensures { IfOk result (λ v. v.items ≡ counting count) }
{
    let mut places = Vec::with_capacity(alloc, count)?;
    for place in 0..count {
        places.push(place)?;
    }
    Ok(places)
}

fn grouped_at(list: &[Grouped], place: usize) -> Grouped
    ensures { result ≡ grouped_at list.now place }
{
    match list.get(place) {
        Some(range) => *range,
        None => Grouped {
            group: 0,
            span: Span { begin: 0, end: 0 },
        },
    }
}

/// The ranges in the order of the places.
#[tactic(auto, unfolding(crate::specs::Sorted::in_order))]
fn in_order(alloc: Global, list: &[Grouped], places: &[usize]) -> Result<Vec<Ordered>, AllocError>
    ensures { IfOk result (λ v. v.items ≡ in_order list.now 0 0 places.now) }
{
    let mut order = Vec::with_capacity(alloc, places.len())?;
    let mut group = 0;
    let mut reach = 0;
    for place in places {
        let range = grouped_at(list, *place);
        reach = range.reach_on(group, reach);
        group = range.group;
        order.push(range.entry(*place, reach))?;
    }
    Ok(order)
}

/// The ranges in the order of a search, if the order of the places was accepted.
pub fn search_order(
    alloc: Global,
    list: &[Grouped],
    keys: &[Key],
    places: &[usize],
    ordered: bool,
) -> Result<Vec<Ordered>, AllocError>
    requires { AreKeysOf keys.now list.now }
    ensures { IfOk result
        (λ v. ordered ≡ true → IsOrder keys.now places.now → IsIndexOf list.now v.items) }
{
    if !ordered {
        return Ok(Vec::new(alloc));
    }
    let turned = turned(alloc, keys, places)?;
    let order = in_order(alloc, list, turned.as_slice())?;
    Ok(order)
}
