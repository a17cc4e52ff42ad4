//! An error for what is not there.
ghost use Rattle.std.specs.Prelude.{◌≡◌, Option, None, Ok, IsErrAnd, MatchOption};
ghost use Rattle.blz_error.specs.Reports.{IsSaid};

use crate::{Error, ErrorKind, IntoCowStr, Result};

/// Makes an error of what is not there, with the text that a closure returns. The closure is called in that case alone;
/// nothing here takes memory.
pub trait IntoError<T>: Sized {
    ghost value_in: { Self → Option T };

    /// The value, or an error of the given kind.
    fn ok_or_error<C: IntoCowStr, G: FnOnce() -> C + Drop>(self, kind: ErrorKind, f: G) -> Result<T>
        requires { value_in self ≡ None → G.pre f }
        ensures { MatchOption (value_in self) (IsErrAnd result (IsSaid (G.post f) C.text_of kind))
            (λ x. result ≡ Ok x) };

    /// The value, or an error of kind InvalidData.
    fn ok_or_invalid_data<C: IntoCowStr, G: FnOnce() -> C + Drop>(self, f: G) -> Result<T>
        requires { value_in self ≡ None → G.pre f }
        ensures { MatchOption (value_in self)
            (IsErrAnd result (IsSaid (G.post f) C.text_of ErrorKind.InvalidData))
            (λ x. result ≡ Ok x) }
    {
        self.ok_or_error(ErrorKind::InvalidData, f)
    }

    /// The value, or an error of kind InvalidInput.
    fn ok_or_invalid_input<C: IntoCowStr, G: FnOnce() -> C + Drop>(self, f: G) -> Result<T>
        requires { value_in self ≡ None → G.pre f }
        ensures { MatchOption (value_in self)
            (IsErrAnd result (IsSaid (G.post f) C.text_of ErrorKind.InvalidInput))
            (λ x. result ≡ Ok x) }
    {
        self.ok_or_error(ErrorKind::InvalidInput, f)
    }

    /// The value, or an error of kind NotFound.
    fn ok_or_not_found<C: IntoCowStr, G: FnOnce() -> C + Drop>(self, f: G) -> Result<T>
        requires { value_in self ≡ None → G.pre f }
        ensures { MatchOption (value_in self)
            (IsErrAnd result (IsSaid (G.post f) C.text_of ErrorKind.NotFound))
            (λ x. result ≡ Ok x) }
    {
        self.ok_or_error(ErrorKind::NotFound, f)
    }

    /// The value, or an error of kind UnexpectedEof.
    fn ok_or_unexpected_eof<C: IntoCowStr, G: FnOnce() -> C + Drop>(self, f: G) -> Result<T>
        requires { value_in self ≡ None → G.pre f }
        ensures { MatchOption (value_in self)
            (IsErrAnd result (IsSaid (G.post f) C.text_of ErrorKind.UnexpectedEof))
            (λ x. result ≡ Ok x) }
    {
        self.ok_or_error(ErrorKind::UnexpectedEof, f)
    }
}

impl<T> IntoError<T> for Option<T> {
    ghost value_in = { λ option. option };

    fn ok_or_error<C: IntoCowStr, G: FnOnce() -> C + Drop>(
        self,
        kind: ErrorKind,
        f: G,
    ) -> Result<T> {
        match self {
            Some(value) => Ok(value),
            None => Err(Error::new(kind, f().into_cow_str())),
        }
    }
}
