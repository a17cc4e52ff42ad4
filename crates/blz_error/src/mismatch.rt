//! What a check found and what it looked for.
ghost use Rattle.std.specs.Prelude.{◌≡◌, List, ℕ};

use std::marker::Model;

/// What a check found, and what it looked for.
#[derive(Drop)]
pub struct Mismatch {
    actual: Vec<u8>,
    expected: Vec<u8>,
}

impl Model for Mismatch {
    ghost use Rattle.std.specs.Prelude.{List, ℕ};

    ghost Value = { List ℕ × List ℕ };

    ghost view = { λ m. (m.actual.items, m.expected.items) };
}

impl Mismatch {
    /// Both values; takes no memory.
    pub fn new(actual: Vec<u8>, expected: Vec<u8>) -> Mismatch
        ensures { result ≡ (actual.items, expected.items) }
    {
        Mismatch { actual, expected }
    }

    /// What was found.
    pub fn actual(&self) -> &[u8]
        ensures { result.now ≡ self.now.0 }
    {
        &self.actual
    }

    /// What was looked for.
    pub fn expected(&self) -> &[u8]
        ensures { result.now ≡ self.now.1 }
    {
        &self.expected
    }
}
