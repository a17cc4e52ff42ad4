//! The error that every fallible call answers.
ghost use Rattle.std.specs.Prelude.{◌≡◌, ◌∷◌, [], ◌<◌, length, None, Some, option_copied};
ghost use Rattle.blz_error.specs.Fault.{out_of_memory};
ghost use Rattle.blz_error.specs.Reports.{causes_of, fault_of, first_text, IsUnder};

use crate::{Cause, ErrorKind, Mismatch, Str};
use std::alloc::{AllocError, AllocFailed, Global};
use std::marker::Model;

/// A kind, a list of texts with the outermost first, and an optional mismatch. The list is never empty.
pub struct Error {
    kind: ErrorKind,
    innermost: Str,
    // the texts that were put on top, the outermost last
    contexts: Option<Vec<Str>>,
    mismatch: Option<Mismatch>,
}

// Written out, so that letting go of one is a call, which is proved once, and not a walk through it at each place.
impl Drop for Error {
    fn drop(self) {
        let Error {
            kind: _,
            innermost: _,
            contexts: _,
            mismatch: _,
        } = self;
    }
}

impl Model for Error {
    ghost use Rattle.blz_error.specs.Fault.{Fault};

    ghost Value = { Fault };

    ghost use Rattle.blz_error.specs.View.{error_view};

    ghost view = { error_view };
}

impl Error {
    /// An error of one text; takes no memory.
    pub fn new(kind: ErrorKind, text: Str) -> Error
        ensures { result ≡ fault_of kind text }
    {
        Error {
            kind,
            innermost: text,
            contexts: None,
            mismatch: None,
        }
    }

    /// An error of one text, with what a check found and looked for; takes no memory.
    pub fn with_mismatch(kind: ErrorKind, text: Str, mismatch: Mismatch) -> Error
        ensures { result ≡ record { kind = kind; texts = text ∷ []; mismatch = Some mismatch } }
    {
        Error {
            kind,
            innermost: text,
            contexts: None,
            mismatch: Some(mismatch),
        }
    }

    /// What went wrong.
    pub fn kind(&self) -> ErrorKind
        ensures { result ≡ self.now.kind }
    {
        self.kind
    }

    /// What a check found and looked for.
    pub fn mismatch(&self) -> Option<&Mismatch>
        ensures { option_copied result ≡ self.now.mismatch }
    {
        self.mismatch.as_ref()
    }

    /// The texts after the first, or `None` where there is one text.
    pub fn source(&self) -> Option<Cause<'_>>
        ensures causes { result ≡ causes_of self.now.texts }
        ensures never_empty { 0 < length self.now.texts }
    {
        self.whole().source()
    }

    // all the texts
    fn whole(&self) -> Cause<'_>
        ensures { result ≡ self.now.texts }
    {
        let contexts = match &self.contexts {
            Some(contexts) => contexts.as_slice(),
            None => &[],
        };
        Cause::new(&self.innermost, contexts)
    }

    pub(crate) fn outermost(&self) -> &str
        ensures { result.now ≡ first_text self.now }
    {
        self.whole().text()
    }

    // the error with a text on top, or as before for want of memory
    pub(crate) fn under(mut self, alloc: Global, text: Str) -> Error
        ensures { IsUnder text self result }
    {
        match &mut self.contexts {
            None => {
                let mut contexts = Vec::new(alloc);
                if contexts.push(text).is_ok() {
                    self.contexts = Some(contexts);
                }
            }
            Some(contexts) => {
                let _ = contexts.push(text);
            }
        }
        self
    }
}

impl From<AllocError> for Error {
    ghost from_gives = { λ _ e. e ≡ out_of_memory };

    fn from(_: AllocError) -> Error {
        no_memory()
    }
}

impl<T: Drop> From<AllocFailed<T>> for Error {
    ghost from_gives = { λ _ e. e ≡ out_of_memory };

    fn from(_: AllocFailed<T>) -> Error {
        no_memory()
    }
}

fn no_memory() -> Error
    ensures { result ≡ out_of_memory }
{
    Error::new(ErrorKind::OutOfMemory, Str::fixed("out of memory"))
}
