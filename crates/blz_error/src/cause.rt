//! What lies under the first text of an error.
ghost use Rattle.std.specs.Prelude.{◌≡◌, ◌∷◌, ◌++◌, [], reverse};
ghost use Rattle.blz_error.specs.Reports.{after_first, causes_of};

use crate::Str;
use std::marker::Model;

/// The texts of an error after its first one: never none.
#[derive(Drop)]
pub struct Cause<'e> {
    innermost: &'e Str,
    // the texts on top of the innermost, the outermost last
    contexts: &'e [Str],
}

impl<'e> Model for Cause<'e> {
    ghost use Rattle.std.specs.Prelude.{List, ℕ, ◌++◌, ◌∷◌, [], reverse};

    ghost Value = { List (List ℕ) };

    ghost view = { λ c. reverse c.contexts.now ++ c.innermost.now ∷ [] };
}

impl<'e> Cause<'e> {
    pub(crate) fn new(innermost: &'e Str, contexts: &'e [Str]) -> Cause<'e>
        ensures { result ≡ reverse contexts.entry.now ++ innermost.entry.now ∷ [] }
    {
        Cause {
            innermost,
            contexts,
        }
    }

    /// The first of these texts.
    pub fn text(&self) -> &'e str
        ensures { self.now ≡ result.now ∷ after_first self.now }
    {
        match self.contexts {
            [.., outermost] => outermost.as_str(),
            [] => self.innermost.as_str(),
        }
    }

    /// The texts after the first, or `None` exactly where there is one text.
    pub fn source(&self) -> Option<Cause<'e>>
        ensures { result ≡ causes_of self.now }
    {
        match self.contexts {
            [inner @ .., _] => Some(Cause {
                innermost: self.innermost,
                contexts: inner,
            }),
            [] => None,
        }
    }
}
