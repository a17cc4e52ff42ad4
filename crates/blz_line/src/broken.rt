//! The refusal of a line table that has no value.
ghost use Rattle.std.specs.Prelude.{◌≡◌};
ghost use Rattle.blz_error.specs.declared.kind.ErrorKind.TheVariants.{InvalidDwarf};

use blz_error::{Error, ErrorKind, Str};

/// InvalidDwarf.
pub fn broken() -> Error
    ensures { result.kind ≡ InvalidDwarf }
{
    Error::new(
        ErrorKind::InvalidDwarf,
        Str::fixed("failed to read line table"),
    )
}
