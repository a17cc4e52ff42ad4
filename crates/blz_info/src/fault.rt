//! The error of broken DWARF data.
ghost use Rattle.std.specs.Prelude.{◌≡◌};
ghost use Rattle.blz_error.specs.declared.kind.ErrorKind.TheVariants.{InvalidDwarf};

use blz_error::{Error, ErrorKind, Str};

/// The error of kind InvalidDwarf with a text that says what is broken.
pub fn invalid(text: &'static str) -> Error
    ensures { result.kind ≡ InvalidDwarf }
{
    Error::new(ErrorKind::InvalidDwarf, Str::fixed(text))
}

/// The error of kind InvalidDwarf of an attribute that cannot be read (DWARF 5 section 7.5.6).
pub fn no_attribute() -> Error
    ensures { result.kind ≡ InvalidDwarf }
{
    invalid("an attribute is not whole or its form is not known")
}
