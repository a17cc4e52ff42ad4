//! Lists whose places have an order of their own, and the check of an order that was handed in.
ghost use Rattle.std.specs.Prelude.{◌≡◌, ℕ, ◌<◌, Bool, None, length, IfSome};
ghost use Rattle.std.specs.Bool.{OnTrue};
ghost use Rattle.blz_bytes.specs.NameOrder.{accepts_names, IsNameOrder, name_before, name_in};
ghost use Rattle.blz_bytes.specs.PairOrder.{accepts, IsOrder, pair_before, is_before, key_at};
ghost use Rattle.blz_bytes.specs.Rising.{puts_in_order, rises, follows};

use crate::{Key, NameSpan};
use std::cmp::Ordering;

trait Ranked {
    ghost before: { Self → ℕ → ℕ → Bool };

    ghost count: { Self → ℕ };

    fn count(&self) -> usize
        ensures { result ≡ count self.now };

    /// Whether one place comes before another.
    fn is_before(&self, p: usize, q: usize) -> bool
        requires { (p < count self.now) × (q < count self.now) }
        ensures { result ≡ before self.now p q };
}

#[derive(Drop)]
struct Pairs<'k> {
    keys: &'k [Key],
}

impl Ranked for Pairs<'_> {
    ghost before = { λ pairs. pair_before pairs.keys.now };

    ghost count = { λ pairs. length pairs.keys.now };

    fn count(&self) -> usize {
        self.keys.len()
    }

    fn is_before(&self, p: usize, q: usize) -> bool {
        let a = self.keys[p];
        let b = self.keys[q];
        a.first < b.first
            || (a.first == b.first && (a.second < b.second || (a.second == b.second && p < q)))
    }
}

#[derive(Drop)]
struct Names<'k> {
    strs: &'k [u8],
    names: &'k [NameSpan],
}

/// The bytes of a name; a span that passes the end of `strs` counts as empty.
pub(crate) fn name_of<'s>(strs: &'s [u8], names: &[NameSpan], place: usize) -> &'s [u8]
    ensures { result.now ≡ name_in strs.entry.now names.now place }
{
    match names.get(place) {
        Some(span) => span.text(strs),
        None => &[],
    }
}

impl Ranked for Names<'_> {
    ghost before = { λ names. name_before names.strs.now names.names.now };

    ghost count = { λ names. length names.names.now };

    fn count(&self) -> usize {
        self.names.len()
    }

    fn is_before(&self, p: usize, q: usize) -> bool {
        let a = name_of(self.strs, self.names, p);
        let b = name_of(self.strs, self.names, q);
        match a.cmp(&b) {
            Ordering::Less => true,
            Ordering::Equal => p < q,
            Ordering::Greater => false,
        }
    }
}

fn follows<L: Ranked>(list: &L, previous: Option<usize>, place: usize) -> bool
    requires { (place < L.count list.now) × IfSome previous (λ p. p < L.count list.now) }
    ensures { result ≡ follows (L.before list.now) previous place }
{
    match previous {
        None => true,
        Some(before) => list.is_before(before, place),
    }
}

#[tactic(auto, unfolding(crate::specs::Rising::rises))]
fn do_rise<L: Ranked>(list: &L, places: &[usize]) -> bool
    ensures { result ≡ rises (L.before list.now) (L.count list.now) None places.now }
{
    let mut previous: Option<usize> = None;
    for place in places {
        if *place >= list.count() || !follows(list, previous, *place) {
            return false;
        }
        previous = Some(*place);
    }
    true
}

#[tactic(auto, unfolding(crate::specs::Rising::puts_in_order))]
fn put_in_order<L: Ranked>(list: &L, places: &[usize]) -> bool
    ensures { result ≡ puts_in_order (L.before list.now) (L.count list.now) places.now }
{
    places.len() == list.count() && do_rise(list, places)
}

/// Whether the places have each key once, in rising order of (first, second, place).
pub fn check_pairs(keys: &[Key], places: &[usize]) -> bool
    ensures test { result ≡ accepts keys.now places.now }
    ensures order { OnTrue result (IsOrder keys.now places.now) }
{
    put_in_order(&Pairs { keys }, places)
}

/// Whether the places have each name once, in rising order of (bytes of the name, place); a span that passes the end of
/// `strs` counts as an empty name.
pub fn check_names(strs: &[u8], names: &[NameSpan], places: &[usize]) -> bool
    ensures test { result ≡ accepts_names strs.now names.now places.now }
    ensures order { OnTrue result (IsNameOrder strs.now names.now places.now) }
{
    put_in_order(&Names { strs, names }, places)
}
