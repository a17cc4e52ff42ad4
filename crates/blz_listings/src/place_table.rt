//! Places with the numbers of their rows.
ghost use Rattle.std.specs.Prelude.{◌≡◌, ◌++◌, [], IfOk, OnOk, slice_get};
ghost use Rattle.blz_listings.specs.ListingViews.{key_view};
ghost use Rattle.blz_listings.specs.SourcePlaces.{count_text_if, counts_text, is_same};
ghost use Rattle.blz_listings.specs.Tallies.{tallied};

use crate::texts::push_count;
use blz_bytes::Room;
use indexmap::IndexMap;
use std::alloc::{AllocError, Global};
use std::marker::Model;

// The words of a place beside its path: its line, its number and its hash in a map that may have grown to twice its length.
const PLACE_WORDS: u64 = 16;

/// A place: the path of a file, and a line in it.
#[derive(PartialEq, Eq, Hash, Drop)]
pub struct PlaceKey {
    pub path: Vec<u8>,
    pub line: u32,
}

impl PlaceKey {
    // The words that one more row of it takes: those of the place where it is new, whose path may lie in twice its length.
    fn words(&self, before: u64) -> u64 {
        if before == 0 {
            self.path.len() as u64 / 4 + PLACE_WORDS
        } else {
            0
        }
    }
}

/// Distinct places in the order in which they came, each with the number of its rows.
#[derive(Drop)]
pub struct PlaceTable {
    counts: IndexMap<PlaceKey, u64>,
}

impl Model for PlaceTable {
    ghost use Rattle.std.specs.Prelude.{List, map};
    ghost use Rattle.blz_listings.specs.ListingViews.{tally_view};
    ghost use Rattle.blz_listings.specs.SourcePlaces.{SourcePlace};
    ghost use Rattle.blz_listings.specs.Tallies.{Tally};

    ghost Value = { List (Tally SourcePlace) };

    ghost view = { λ t. map tally_view t.counts.entries };
}

impl PlaceTable {
    /// No places; takes no memory.
    pub fn new(alloc: Global) -> PlaceTable
        ensures { result ≡ [] }
    {
        PlaceTable {
            counts: IndexMap::new(alloc),
        }
    }

    /// Counts a row at a place; a new one takes words of the room. Want of memory is told too where no number is left.
    pub fn add(&mut self, key: PlaceKey, room: &mut Room) -> Result<(), AllocError>
        ensures { OnOk result (self.new ≡ tallied is_same self.old (key_view key)) }
    {
        let before = self.counts.get(&key).copied().unwrap_or(0);
        room.take(key.words(before))?;
        if before == u64::MAX {
            return Err(AllocError);
        }
        self.counts.insert(key, before + 1)?;
        Ok(())
    }

    /// The places, each with the number of its rows.
    pub fn text(&self, alloc: Global) -> Result<Vec<u8>, AllocError>
        ensures { IfOk result (λ v. v.items ≡ counts_text self.now) }
    {
        let mut out = Vec::new(alloc);
        for index in 0..self.counts.len() {
            self.push_at(&mut out, index)?;
        }
        Ok(out)
    }

    // The place of an index; nothing where there is none.
    fn push_at(&self, out: &mut Vec<u8>, index: usize) -> Result<(), AllocError>
        ensures { OnOk result
            (out.new.items ≡ out.old.items ++ count_text_if (slice_get self.now index)) }
    {
        match self.counts.get_index(index) {
            Some((key, count)) => push_count(out, &key.path, key.line, *count),
            None => Ok(()),
        }
    }
}
