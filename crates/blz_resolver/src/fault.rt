//! The errors of what is broken or not looked for.
ghost use Rattle.std.specs.Prelude.{◌≡◌};
ghost use Rattle.blz_error.specs.declared.kind.ErrorKind.TheVariants.{InvalidDwarf, Unsupported};

use blz_error::{Error, ErrorKind, Str};

/// The error of kind InvalidDwarf with a text that says what is broken.
pub(crate) fn invalid(text: &'static str) -> Error
    ensures { result.kind ≡ InvalidDwarf }
{
    Error::new(ErrorKind::InvalidDwarf, Str::fixed(text))
}

/// The error of kind Unsupported with a text that says what is not read.
pub(crate) fn unsupported(text: &'static str) -> Error
    ensures { result.kind ≡ Unsupported }
{
    Error::new(ErrorKind::Unsupported, Str::fixed(text))
}
