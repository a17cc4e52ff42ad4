//! Ranges of functions in memory, as a unit of so many functions has them.
ghost use Rattle.std.specs.Prelude.{◌≡◌, ◌<◌};

use crate::clocked::now;
use crate::symbols::Searched;
use blz_bytes::{Orders, Steps};
use blz_entry::Span;
use blz_error::Result;
use blz_index::RangeIndex;
use std::alloc::Global;
use std::marker::Brand;
use std::sync::ledger::{Blank, Ledger};
use std::time::CpuClock;

/// From the begin of a function to that of the next one.
const APART: u64 = 16;
/// The size of a function.
const SIZE: u64 = 12;
/// A prime, whose multiples visit each number below a count that it does not divide.
const STRIDE: u64 = 48_271;

// The begin of the function at a place of the list; the functions stand in the list in another order than in memory.
fn begin(place: u64, count: u64) -> u64 {
    let number = place.wrapping_mul(STRIDE).checked_rem(count).unwrap_or(0);
    number.wrapping_mul(APART)
}

// The ranges of so many functions, which share no address.
fn spans(alloc: Global, count: u64) -> Result<Vec<Span>> {
    let mut spans = Vec::new(alloc);
    for place in 0..count {
        let begin = begin(place, count);
        spans.push(Span {
            begin,
            end: begin.wrapping_add(SIZE),
        })?;
    }
    Ok(spans)
}

fn found_in<L: Ledger>(index: &RangeIndex, count: u64, blank: Blank) -> u64
    requires name { blank.name ≡ L.name }
    requires parts { blank.parts ≡ L.parts }
    requires some { 0 < blank.parts }
{
    let mut steps: Steps<L> = Steps::new(blank);
    let mut found: u64 = 0;
    for place in 0..count {
        let addr = begin(place, count).wrapping_add(SIZE / 2);
        if index.best_at(addr, &mut steps).is_some() {
            found = found.saturating_add(1);
        }
    }
    found
}

/// Indexes the ranges of so many functions, and searches `asked` of them. An order that does not pass its check makes each
/// search a scan.
pub fn count_covered<O: Orders, C: CpuClock>(
    alloc: Global,
    clock: &C,
    orders: &mut O,
    count: u64,
    asked: u64,
) -> Result<Searched> {
    let spans = spans(alloc, count)?;
    let begun = now(clock);
    let index = RangeIndex::build(alloc, orders, spans)?;
    let prepared = now(clock);
    let found = found_in::<Brand>(&index, asked, Blank::new(1));
    Ok(Searched {
        found,
        preparing: prepared.saturating_sub(begun),
        searching: now(clock).saturating_sub(prepared),
    })
}

/// Sorts the same list by std, and nothing else.
pub fn sort<C: CpuClock>(alloc: Global, clock: &C, count: u64) -> Result<Searched> {
    let mut spans = spans(alloc, count)?;
    let begun = now(clock);
    spans.sort_unstable_by_key(|span| (span.begin, span.end));
    Ok(Searched {
        found: spans.len() as u64,
        preparing: now(clock).saturating_sub(begun),
        searching: 0,
    })
}
