//! Functions found by their names.
ghost use Rattle.std.specs.Prelude.{◌≡◌, position};
ghost use Rattle.blz_units.specs.KeptAnswers.{Repeats};
ghost use Rattle.blz_units.specs.UnitAnswers.{is_called};
ghost use Rattle.blz_reader.specs.UnitNames.{kept_called};
ghost use Rattle.blz_functions.specs.declared.functions.Function.{Function};

use blz_entry::{StrPlace, Texts};
use blz_error::Result;
use blz_functions::Function;
use blz_units::caches::UnitCaches;
use blz_units::look::functions_of;

fn is_called(texts: &Texts<'_>, name: &str, place: Option<StrPlace>) -> bool
    ensures { result ≡ is_called texts.now name.now place }
{
    match place {
        Some(place) => texts.get(place) == name.as_bytes(),
        None => false,
    }
}

/// The number of the first function of a list that has a name.
fn first_called(texts: &Texts<'_>, name: &str, functions: &[Function]) -> Option<usize>
    ensures { result ≡ position
        (λ (function : Function). is_called texts.now name.now function.name) functions.now }
{
    functions
        .iter()
        .position(|function| is_called(texts, name, function.name))
}

/// The number of the first function that has a name, of a unit whose functions are kept.
pub fn called_in(
    units: &[UnitCaches],
    texts: &Texts<'_>,
    number: usize,
    name: &str,
) -> Result<Option<usize>>
    ensures { Repeats (λ n. n) result (kept_called texts.now name.now units.now number) }
{
    match functions_of(units, number) {
        Ok(functions) => Ok(first_called(texts, name, functions.functions())),
        Err(fault) => Err(fault),
    }
}
