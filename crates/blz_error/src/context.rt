//! What was being done when an error came.
ghost use Rattle.std.specs.Prelude.{◌≡◌, Ok, IsErr, IsErrAnd, MatchResult, ⊤};
ghost use Rattle.blz_error.specs.Fault.{Fault};
ghost use Rattle.blz_error.specs.Reports.{IsUnder, IsUnderSaid, KeepsCause};

use crate::{Error, IntoCowStr};
use std::alloc::Global;

/// Puts a text on top of an error, or of the error in a `Result`. Its kind and its mismatch stay.
pub trait ErrorExt {
    /// What holds the error then.
    type Output;

    // `self` is an error, or holds one
    ghost fails: { Self → Type 0 };

    // the output, where the fact holds of the errors before and after; what is no error stays
    ghost becomes: { (Fault → Fault → Type 0) → Self → Self.Output → Type 0 };

    /// The error with the text on top, or as before where memory runs out.
    fn context<C: IntoCowStr + Drop>(self, alloc: Global, context: C) -> Self::Output
        ensures under { becomes (IsUnder (C.text_of context)) self result }
        ensures kept { becomes KeepsCause self result };

    /// The same with the text that the closure returns, which is called for an error alone.
    fn with_context<C: IntoCowStr, G: FnOnce() -> C + Drop>(
        self,
        alloc: Global,
        f: G,
    ) -> Self::Output
        requires { fails self → G.pre f }
        ensures under { becomes (IsUnderSaid (G.post f) C.text_of) self result }
        ensures kept { becomes KeepsCause self result };
}

impl ErrorExt for Error {
    type Output = Error;

    ghost fails = { λ _. ⊤ };

    ghost becomes = { λ P before after. P before after };

    fn context<C: IntoCowStr + Drop>(self, alloc: Global, context: C) -> Error {
        self.under(alloc, context.into_cow_str())
    }

    fn with_context<C: IntoCowStr, G: FnOnce() -> C + Drop>(self, alloc: Global, f: G) -> Error {
        self.under(alloc, f().into_cow_str())
    }
}

impl<T> ErrorExt for Result<T, Error> {
    type Output = Result<T, Error>;

    ghost fails = { IsErr };

    ghost becomes = { λ P before after. MatchResult before (λ x. after ≡ Ok x) (λ e. IsErrAnd after (P e)) };

    fn context<C: IntoCowStr + Drop>(self, alloc: Global, context: C) -> Result<T, Error> {
        match self {
            Ok(value) => Ok(value),
            Err(e) => Err(e.context(alloc, context)),
        }
    }

    fn with_context<C: IntoCowStr, G: FnOnce() -> C + Drop>(
        self,
        alloc: Global,
        f: G,
    ) -> Result<T, Error> {
        match self {
            Ok(value) => Ok(value),
            Err(e) => Err(e.with_context(alloc, f)),
        }
    }
}
