//! The order of a search: of places whose keys are alike the earlier one stands later.
ghost use Rattle.std.specs.Prelude.{◌≡◌, ◌<◌, ℕ, length, IfOk, ◌==◌, ◌&&◌};
ghost use Rattle.blz_bytes.specs.PairOrder.{key_at};
ghost use Rattle.blz_ranges.specs.Turned.{place_at, key_in, are_alike, IsRunTo, IsAround, IsBehind, AreTurned};

use blz_bytes::Key;
use std::alloc::{AllocError, Global};

/// From one index up to another.
#[derive(Clone, Copy)]
pub struct Run {
    pub from: usize,
    pub to: usize,
}

fn place_at(places: &[usize], at: usize) -> usize
    ensures { result ≡ place_at places.now at }
{
    match places.get(at) {
        Some(place) => *place,
        None => 0,
    }
}

fn key_in(keys: &[Key], places: &[usize], at: usize) -> Key
    ensures { result ≡ key_in keys.now places.now at }
{
    match keys.get(place_at(places, at)) {
        Some(key) => *key,
        None => Key {
            first: 0,
            second: 0,
        },
    }
}

fn are_alike(one: Key, other: Key) -> bool
    ensures { result ≡ are_alike one other }
{
    one.first == other.first && one.second == other.second
}

/// Where the keys that are alike end, of which the first stands at an index.
fn run_to(keys: &[Key], places: &[usize], from: usize) -> usize
    requires { from < length places.now }
    ensures { IsRunTo keys.now places.now from result }
{
    let first = key_in(keys, places, from);
    let mut to = from + 1;
    while to < places.len() {
        if !are_alike(key_in(keys, places, to), first) {
            return to;
        }
        to += 1;
    }
    to
}

/// The run of an index, by that of the index before it.
fn run_at(keys: &[Key], places: &[usize], at: usize, last: Run) -> Run
    requires within { at < length places.now }
    requires last { IsBehind keys.now places.now at last }
    ensures { IsAround keys.now places.now at result }
{
    if at == last.to {
        Run {
            from: at,
            to: run_to(keys, places, at),
        }
    } else {
        last
    }
}

/// The places with those turned round whose keys are alike.
pub fn turned(alloc: Global, keys: &[Key], places: &[usize]) -> Result<Vec<usize>, AllocError>
    ensures { IfOk result (λ v. AreTurned keys.now places.now v.items) }
{
    let mut turned = Vec::with_capacity(alloc, places.len())?;
    let mut run = Run { from: 0, to: 0 };
    for at in 0..places.len() {
        run = run_at(keys, places, at, run);
        turned.push(place_at(places, run.from + (run.to - 1 - at)))?;
    }
    Ok(turned)
}
