//! Orders of a list, handed in by a caller.
ghost use Rattle.std.specs.Prelude.{◌≡◌, List, ℕ, Option, Some, length};
ghost use Rattle.blz_bytes.specs.NameOrder.{text_in};
ghost use Rattle.blz_bytes.specs.ToldPlaces.{counting, TellsPlaces};
ghost use Rattle.blz_bytes.specs.declared.orders.Key.{Key};
ghost use Rattle.blz_bytes.specs.declared.orders.NameSpan.{NameSpan};

use crate::piece_at;

/// What a place of a list is sorted by, before the place itself.
#[derive(Clone, Copy, Debug, PartialEq, Eq)]
pub struct Key {
    /// What counts first.
    pub first: u64,
    /// What counts among equal first numbers.
    pub second: u64,
}

/// Where a name stands in a table of strings.
#[derive(Clone, Copy, Debug, PartialEq, Eq)]
pub struct NameSpan {
    /// The place of the first byte.
    pub start: usize,
    /// The number of bytes.
    pub len: usize,
}

impl NameSpan {
    /// The bytes of the name in its table; a span that passes the table's end counts as empty.
    pub fn text<'s>(&self, strs: &'s [u8]) -> &'s [u8]
        ensures { result.now ≡ text_in strs.entry.now (Some self.now) }
    {
        match piece_at(strs, self.start, self.len) {
            Some((name, _)) => name,
            None => &[],
        }
    }
}

/// Puts the places of a list into an order. Nothing is assumed of what a slice holds afterwards: what comes back is
/// checked.
pub trait Orders {
    /// The places that `by_pair` puts into the slice, where they are told.
    ghost pair_places: { Option (List Key → List ℕ) };

    /// The places that `by_name` puts into the slice, where they are told.
    ghost name_places: { Option (List ℕ × List NameSpan → List ℕ) };

    /// Is to put the places 0, 1, 2 and so on, one for each key, into rising order of (first, second, place).
    fn by_pair(&mut self, keys: &[Key], places: &mut [usize])
        requires { places.old ≡ counting (length keys.now) }
        ensures places { TellsPlaces pair_places keys.now places.new };

    /// Is to put the places 0, 1, 2 and so on, one for each name, into rising order of (bytes of the name, place).
    fn by_name(&mut self, strs: &[u8], names: &[NameSpan], places: &mut [usize])
        requires { places.old ≡ counting (length names.now) }
        ensures places { TellsPlaces name_places (strs.now, names.now) places.new };
}

/// Leaves the places as they are, and says so.
#[derive(Clone, Copy, Debug, Drop)]
pub struct AsTheyStand;

impl Orders for AsTheyStand {
    ghost pair_places = { Some (λ keys. counting (length keys)) };

    ghost name_places = { Some (λ names. counting (length names.1)) };

    fn by_pair(&mut self, _keys: &[Key], _places: &mut [usize]) {}

    fn by_name(&mut self, _strs: &[u8], _names: &[NameSpan], _places: &mut [usize]) {}
}
