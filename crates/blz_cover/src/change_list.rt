//! The changes of a count, which only proofs read. They take no memory, and their calls do nothing at run time.
ghost use Rattle.std.specs.Prelude.{◌≡◌, List, [], ◌∷◌, ◌++◌};
ghost use Rattle.std.specs.Borrow.{ftrue};
ghost use Rattle.blz_cover.specs.declared.change.Change.{Change};

use crate::change::Change;
use std::marker::Model;

/// A list of changes that clauses read as `items`.
#[derive(Drop)]
pub struct ChangeList {
    pub ghost items: { List Change },
}

impl Model for ChangeList {
    ghost also_owns = { λ _. ftrue };
}

impl ChangeList {
    /// No changes.
    pub fn new() -> ChangeList
        ensures { result.items ≡ [] }
    {
        ChangeList {}
    }

    /// The changes with one more.
    pub fn with(&self, _change: &Change) -> ChangeList
        ensures { result.items ≡ self.now.items ++ _change.now ∷ [] }
    {
        ChangeList {}
    }
}
