//! Distinct stacks of numbers with their counts.
ghost use Rattle.std.specs.Prelude.{◌≡◌, ◌+◌, ◌<◌, ◌^◌, [], length, map, nat_eq, OnOk, Some, slice_get};
ghost use Rattle.blz_fold.specs.Counted.{total};
ghost use Rattle.blz_fold.specs.Adding.{line_added};
ghost use Rattle.blz_fold.specs.LineViews.{line_read};

use indexmap::IndexMap;
use std::alloc::{AllocError, Global};
use std::marker::Model;

/// The distinct lists of numbers in the order in which they came, each with the sum of its counts.
#[derive(Drop)]
pub(crate) struct Lines {
    counts: IndexMap<Vec<usize>, u64>,
}

impl Model for Lines {
    ghost use Rattle.std.specs.Prelude.{List, ℕ, map};
    ghost use Rattle.blz_fold.specs.Counted.{Counted};
    ghost use Rattle.blz_fold.specs.LineViews.{line_view};

    ghost Value = { List (Counted ℕ) };

    ghost view = { λ l. map line_view l.counts.entries };
}

impl Lines {
    /// No lists.
    pub(crate) fn new(alloc: Global) -> Lines
        ensures { result ≡ [] }
    {
        Lines {
            counts: IndexMap::new(alloc),
        }
    }

    /// Counts a list once more.
    pub(crate) fn add(
        &mut self,
        alloc: Global,
        names: &[usize],
        count: u64,
    ) -> Result<(), AllocError>
        requires { total self.old + count < 2 ^ 64 }
        ensures { OnOk result (self.new ≡ line_added nat_eq self.old names.now count) }
    {
        let key = names.to_vec(alloc)?;
        let before = self.counts.get(&key).copied().unwrap_or(0);
        self.counts.insert(key, before + count)?;
        Ok(())
    }

    /// How many they are.
    pub(crate) fn len(&self) -> usize
        ensures { result ≡ length self.now }
    {
        self.counts.len()
    }

    /// The list at an index, and its count.
    pub(crate) fn at(&self, idx: usize) -> (&[usize], u64)
        requires { idx < length self.now }
        ensures { slice_get self.now idx ≡ Some (line_read result) }
    {
        match self.counts.get_index(idx) {
            Some((names, count)) => (names.as_slice(), *count),
            None => unreachable!(),
        }
    }
}
