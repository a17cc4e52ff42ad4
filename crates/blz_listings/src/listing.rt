//! What is made of the rows of an image, one after the other.
ghost use Rattle.std.specs.Prelude.{◌≡◌, IfOk, OnOk};
ghost use Rattle.blz_listings.specs.ListingViews.{entry_view};
ghost use Rattle.blz_listings.specs.Shown.{nothing, shown_with, text_in, with_place};

use crate::place_table::{PlaceKey, PlaceTable};
use crate::texts::push_row;
use crate::wanted::Wanted;
use blz_bytes::Room;
use std::alloc::{AllocError, Global};
use std::marker::Model;

// Units may share a line program, whose rows are looked at for each of them: the words of a row that is counted, and how
// many bytes of its path for a word.
const ROW_WORDS: u64 = 1;

const PATH_BYTES_A_WORD: u64 = 64;

// The words of a row that is printed: those of its text beside its path, and how many bytes of its path for a word.
const TEXT_WORDS: u64 = 6;

const TEXT_BYTES_A_WORD: u64 = 8;

/// A row with the path of its file.
#[derive(Drop)]
pub struct ListedRow {
    pub path: Vec<u8>,
    pub line: u32,
    /// The first address.
    pub address: u64,
    /// The address behind the last.
    pub end: u64,
}

impl ListedRow {
    // The words that it takes, as it is wanted.
    fn words(&self, wanted: Wanted) -> u64 {
        let path = self.path.len() as u64;
        match wanted {
            Wanted::Places => path / PATH_BYTES_A_WORD + ROW_WORDS,
            Wanted::Entries => path / TEXT_BYTES_A_WORD + TEXT_WORDS,
        }
    }
}

/// The rows that came, as it is wanted: their text, or their places with the numbers of their rows.
#[derive(Drop)]
pub struct Listing {
    wanted: Wanted,
    text: Vec<u8>,
    counts: PlaceTable,
    // what further rows may take
    room: Room,
}

impl Model for Listing {
    ghost use Rattle.blz_listings.specs.Shown.{Shown};

    ghost Value = { Shown };

    ghost view = { λ l. record { wanted = l.wanted; text = l.text.items; counts = l.counts } };
}

impl Listing {
    /// No rows; takes no memory. Each row takes words of the room.
    pub fn new(alloc: Global, wanted: Wanted, room: Room) -> Listing
        ensures { result ≡ nothing wanted }
    {
        Listing {
            wanted,
            text: Vec::new(alloc),
            counts: PlaceTable::new(alloc),
            room,
        }
    }

    /// Takes a row.
    pub fn add(&mut self, row: ListedRow) -> Result<(), AllocError>
        ensures { OnOk result (self.new ≡ shown_with self.old (entry_view row)) }
    {
        self.room.take(row.words(self.wanted))?;
        match self.wanted {
            Wanted::Places => self.count(row),
            Wanted::Entries => push_row(&mut self.text, &row),
        }
    }

    // Counts a row at its place; line 0 is no place.
    fn count(&mut self, row: ListedRow) -> Result<(), AllocError>
        ensures { OnOk result (self.new ≡ with_place self.old (entry_view row)) }
    {
        if row.line == 0 {
            return Ok(());
        }
        let key = PlaceKey {
            path: row.path,
            line: row.line,
        };
        self.counts.add(key, &mut self.room)
    }

    /// The text of all.
    pub fn into_text(self, alloc: Global) -> Result<Vec<u8>, AllocError>
        ensures { IfOk result (λ v. v.items ≡ text_in self) }
    {
        match self.wanted {
            Wanted::Places => self.counts.text(alloc),
            Wanted::Entries => Ok(self.text),
        }
    }
}
