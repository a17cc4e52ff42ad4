//! The order that std's sort finds.
ghost use Rattle.std.specs.Prelude.{◌≡◌, None};

use crate::ranked::name_of;
use crate::{Key, NameSpan, Orders};

/// Sorts by std's unstable sort; it tells nothing of the places.
#[derive(Clone, Copy, Debug, Drop)]
pub struct ByStdSort;

fn triple(keys: &[Key], place: usize) -> (u64, u64, usize) {
    match keys.get(place) {
        Some(key) => (key.first, key.second, place),
        None => (0, 0, place),
    }
}

impl Orders for ByStdSort {
    ghost pair_places = { None };

    ghost name_places = { None };

    fn by_pair(&mut self, keys: &[Key], places: &mut [usize]) {
        places.sort_unstable_by_key(|place| triple(keys, *place));
    }

    fn by_name(&mut self, strs: &[u8], names: &[NameSpan], places: &mut [usize]) {
        places.sort_unstable_by_key(|place| (name_of(strs, names, *place), *place));
    }
}
