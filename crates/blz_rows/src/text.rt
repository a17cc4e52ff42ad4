//! The printed text, made whole before any of it is written.
ghost use Rattle.std.specs.Prelude.{◌≡◌, IfOk};
ghost use Rattle.blz_rows.specs.PrintedRows.{places_text, next_text};

use crate::places::Place;
use blz_program::{push_decimal, push_hex};
use std::alloc::{AllocError, Global};

/// The address of each place, on a line of its own.
pub fn places_text(alloc: Global, places: &[Place]) -> Result<Vec<u8>, AllocError>
    ensures { IfOk result (λ v. v.items ≡ places_text places.now) }
{
    let mut out = Vec::new(alloc);
    for place in places {
        push_hex(&mut out, place.address)?;
        out.push(b'\n')?;
    }
    Ok(out)
}

/// The line, or nothing where there is none.
pub fn next_text(alloc: Global, next: Option<u32>) -> Result<Vec<u8>, AllocError>
    ensures { IfOk result (λ v. v.items ≡ next_text next) }
{
    let mut out = Vec::new(alloc);
    if let Some(line) = next {
        push_decimal(&mut out, u64::from(line))?;
        out.push(b'\n')?;
    }
    Ok(out)
}
