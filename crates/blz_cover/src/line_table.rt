//! Lines of sources with their counts, in the order in which they were met.
ghost use Rattle.std.specs.Prelude.{◌≡◌, ◌+◌, ◌-◌, ◌≤◌, ◌<◌, ◌^◌, [], length, slice_get, IfOk, OnErr};
ghost use Rattle.std.specs.Option.{option_map};
ghost use Rattle.blz_cover.specs.LineEntries.{LineEntry, first_and_count, recount, met, found_or_last};
ghost use Rattle.blz_cover.specs.LineKeys.{count_view};

use blz_bytes::Room;
use indexmap::IndexMap;
use std::alloc::{AllocError, Global};
use std::marker::Model;

// The words of a line beside its path: its place, its count and its hash in a map that may have grown to twice its length.
const LINE_WORDS: u64 = 16;

/// The place of a line: the path of the file, and the line in it.
#[derive(PartialEq, Eq, Hash, Drop)]
pub struct LineKey {
    pub path: Vec<u8>,
    pub line: u32,
}

impl LineKey {
    // The words that a new line takes; the path may lie in twice its length.
    fn words(&self) -> u64 {
        self.path.len() as u64 / 4 + LINE_WORDS
    }
}

/// What is counted at a line, and the address that it was first met at.
#[derive(Clone, Copy)]
pub struct LineCount {
    pub addr: u64,
    pub count: u64,
}

/// Lines with their counts, each found by its place.
#[derive(Drop)]
pub struct LineTable {
    entries: IndexMap<LineKey, LineCount>,
    // what further lines may take
    room: Room,
}

impl Model for LineTable {
    ghost use Rattle.std.specs.Prelude.{List, map};
    ghost use Rattle.blz_cover.specs.LineEntries.{LineEntry};

    ghost Value = { List LineEntry };

    ghost use Rattle.blz_cover.specs.LineKeys.{entry_view};

    ghost view = { λ t. map entry_view t.entries.entries };
}

impl LineTable {
    /// No lines; takes no memory. Each new line takes words of the room.
    pub fn new(alloc: Global, room: Room) -> LineTable
        ensures { result ≡ [] }
    {
        LineTable {
            entries: IndexMap::new(alloc),
            room,
        }
    }

    /// The number of lines.
    pub fn len(&self) -> usize
        ensures { result ≡ length self.now }
    {
        self.entries.len()
    }

    /// What is counted at the line of an index; none from the length on.
    pub fn get(&self, index: usize) -> Option<LineCount>
        ensures { option_map count_view result ≡ option_map first_and_count (slice_get self.now index) }
    {
        let (_, count) = self.entries.get_index(index)?;
        Some(*count)
    }

    /// The index of a place. A new place is put last, with the address and a count of 0. After want of memory all is as
    /// before.
    pub fn index_or_push(&mut self, key: LineKey, addr: u64) -> Result<usize, AllocError>
        ensures index { IfOk result (λ i. i ≡ found_or_last key.path.items key.line self.old) }
        ensures lines { IfOk result (λ _. self.new ≡ met key.path.items key.line addr self.old) }
        ensures err { OnErr result (self.new ≡ self.old) }
    {
        match self.entries.get_index_of(&key) {
            Some(index) => Ok(index),
            None => {
                self.room.take(key.words())?;
                let index = self.entries.len();
                self.entries.insert(key, LineCount { addr, count: 0 })?;
                Ok(index)
            }
        }
    }

    /// Adds to the count of the line of an index.
    pub fn add(&mut self, index: usize, count: u64)
        requires { (e : LineEntry) → slice_get self.old index ≡ Some e → e.count + count < 2 ^ 64 }
        ensures { self.new ≡ recount (λ n. n + count) self.old index }
    {
        let Some(line) = self.entries.get_index_mut(index) else {
            return;
        };
        line.count += count;
    }

    /// Takes from the count of the line of an index.
    pub fn take(&mut self, index: usize, count: u64)
        requires { (e : LineEntry) → slice_get self.old index ≡ Some e → count ≤ e.count }
        ensures { self.new ≡ recount (λ n. n - count) self.old index }
    {
        let Some(line) = self.entries.get_index_mut(index) else {
            return;
        };
        line.count -= count;
    }
}
