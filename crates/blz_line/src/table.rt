//! A list whose first entries may be all alike.
ghost use Rattle.std.specs.Prelude.{◌≡◌, [], ◌++◌, ◌∷◌, replicate, slice_get, IfOk, IfErr};
ghost use Rattle.blz_line.specs.Tables.{copies};

use std::alloc::{AllocError, Global};
use std::marker::Model;

/// A list that keeps equal entries in front once, with their number: that number may be one that no byte backs.
#[derive(Drop)]
pub struct Table<T: Copy> {
    repeated: Option<(u64, T)>,
    listed: Vec<T>,
}

impl<T: Copy> Model for Table<T> {
    ghost use Rattle.std.specs.Prelude.{List, ◌++◌};
    ghost use Rattle.blz_line.specs.Tables.{copies};

    ghost Value = { List T };

    ghost view = { λ t. copies t.repeated ++ t.listed.items };
}

impl<T: Copy> Table<T> {
    /// A list of no entries.
    pub fn new(alloc: Global) -> Table<T>
        ensures { result ≡ [] }
    {
        Table {
            repeated: None,
            listed: Vec::new(alloc),
        }
    }

    /// A list of so many equal entries.
    pub fn of_equal(alloc: Global, count: u64, entry: T) -> Table<T>
        ensures { result ≡ replicate count entry }
    {
        Table {
            repeated: Some((count, entry)),
            listed: Vec::new(alloc),
        }
    }

    /// Adds an entry at the end; after want of memory the list is as before.
    pub fn push(&mut self, entry: T) -> Result<(), AllocError>
        ensures added { IfOk result (λ _. self.new ≡ self.old ++ entry ∷ []) }
        ensures kept { IfErr result (λ _. self.new ≡ self.old) }
    {
        self.listed.push(entry)?;
        Ok(())
    }

    /// The equal entries in front, and those behind them.
    pub fn parts(&self) -> (Option<(u64, T)>, &[T])
        ensures { self.now ≡ copies result.0 ++ result.1.now }
    {
        (self.repeated, self.listed.as_slice())
    }

    /// The entry at an index.
    pub fn get(&self, index: u64) -> Option<T>
        ensures { result ≡ slice_get self.now index }
    {
        let at = index as usize;
        match &self.repeated {
            None => self.listed.get(at).copied(),
            Some((count, entry)) => {
                if index < *count {
                    Some(*entry)
                } else {
                    self.listed.get(at - *count as usize).copied()
                }
            }
        }
    }
}
