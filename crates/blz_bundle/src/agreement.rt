//! The checks of a file that a link leads to.
ghost use Rattle.std.specs.Prelude.{◌≡◌};
ghost use Rattle.blz_bundle.specs.Opened.{agreeing};
ghost use Rattle.blz_bundle.specs.Outcomes.{Concludes};

use blz_error::{Error, ErrorKind, Mismatch, Result, Str};
use std::alloc::Global;

/// What a check of a file found, and what was recorded of it.
#[derive(Clone, Copy)]
pub struct Compared<'c> {
    /// What the file has.
    pub actual: &'c [u8],
    /// What the link to it says.
    pub recorded: &'c [u8],
}

impl<'c> Compared<'c> {
    /// Refused as InvalidData, with both values, where they do not agree.
    pub fn agree(self, alloc: Global, same: bool, text: &'static str) -> Result<()>
        ensures { Concludes (λ _. tt) result ⊥
            (λ found. agreeing same self.entry.actual.now self.entry.recorded.now ≡ found) }
    {
        if same {
            return Ok(());
        }
        let actual = Vec::from_slice(alloc, self.actual)?;
        let recorded = Vec::from_slice(alloc, self.recorded)?;
        Err(Error::with_mismatch(
            ErrorKind::InvalidData,
            Str::fixed(text),
            Mismatch::new(actual, recorded),
        ))
    }
}
