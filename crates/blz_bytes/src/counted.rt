//! A list whose looks are counted.
ghost use Rattle.std.specs.Prelude.{◌≡◌, ℕ, ◌+◌, ◌<◌, List, length};
ghost use Rattle.std.specs.List.{slice_get};

use std::marker::Model;
use std::sync::ledger::{Blank, Book, Ledger, Share};

/// How many looks were taken. It has no bytes at run time, and only a look changes it.
#[derive(Drop)]
pub struct Steps<L: Ledger> {
    book: Book<L>,
    share: Share<L>,
}

impl<L: Ledger> Model for Steps<L> {
    ghost Value = { ℕ };

    ghost view = { λ s. s.book.total };

    ghost invariant = { λ s. 0 < s.share.parts };
}

impl<L: Ledger> Steps<L> {
    /// A count that begins at 0.
    pub fn new(blank: Blank) -> Steps<L>
        requires name { blank.name ≡ L.name }
        requires parts { blank.parts ≡ L.parts }
        requires some { 0 < blank.parts }
        ensures { result ≡ 0 }
    {
        let (book, share) = blank.open();
        Steps { book, share }
    }

    fn tick(&mut self)
        ensures { self.new ≡ self.old + 1 }
    {
        self.book.add(&mut self.share, 1);
    }
}

/// A list that gives an entry only by a look that is counted.
#[derive(Drop)]
pub struct Counted<T: Copy> {
    entries: Vec<T>,
}

impl<T: Copy> Model for Counted<T> {
    ghost Value = { List T };

    ghost view = { λ c. c.entries.items };
}

impl<T: Copy> Counted<T> {
    /// The list of these entries.
    pub fn new(entries: Vec<T>) -> Counted<T>
        ensures { result ≡ entries.items }
    {
        Counted { entries }
    }

    /// The number of entries.
    pub fn len(&self) -> usize
        ensures { result ≡ length self.now }
    {
        self.entries.len()
    }

    /// The entry at a place, for one step; none from the length on.
    pub fn look<L: Ledger>(&self, at: usize, steps: &mut Steps<L>) -> Option<T>
        ensures entry { result ≡ slice_get self.now at }
        ensures cost { steps.new ≡ steps.old + 1 }
    {
        steps.tick();
        self.entries.get(at).copied()
    }
}
