//! The questions about a line of a source file.
ghost use Rattle.std.specs.Prelude.{◌≡◌, ◌<◌, ◌≤◌, IfErr, IfOk, length, map};
ghost use Rattle.blz_model.specs.Part.{Gives};
ghost use Rattle.blz_resolver.specs.BundleViews.{bundle_view};
ghost use Rattle.blz_resolver.specs.FormatKinds.{IsMemoryOrFormat};
ghost use Rattle.blz_rows.specs.Asking.{place_in};
ghost use Rattle.blz_rows.specs.LineAnswers.{places_of, next_of};

use crate::asked::{Asked, AskedLines};
use crate::found::FoundRow;
use crate::gather::found_rows;
use crate::least::least_line;
use crate::places::{Place, Places};
use blz_bytes::Orders;
use blz_error::Result;
use blz_resolver::Bundle;
use std::alloc::{AllocError, Global};

/// The addresses of each row of a line of a file, in the order of the units, their sequences and their rows. A file is
/// meant whose path is the name, or ends in `/` and the name. Refused by the first mark: those of the frame; then
/// InvalidDwarf for lines without a value, and for a row whose file is not there (DWARF 5 section 6.2).
pub fn rows_of<O: Orders>(
    alloc: Global,
    orders: &mut O,
    bundle: &Bundle<'_>,
    file: &[u8],
    line: u32,
) -> Result<Places>
    requires named { 0 < length file.now }
    requires numbered { 1 ≤ line }
    ensures value { Gives (λ places. places) result (places_of (bundle_view bundle.now) file.now line) }
    ensures kinds { IfErr result (λ e. IsMemoryOrFormat e.kind) }
{
    let lines = AskedLines::At(line);
    let found = found_rows(alloc, orders, bundle, Asked { file, lines })?;
    let places = places_in(alloc, &found)?;
    Ok(Places::from_vec(places))
}

fn places_in(alloc: Global, rows: &[FoundRow]) -> std::result::Result<Vec<Place>, AllocError>
    ensures { IfOk result (λ v. v.items ≡ map place_in rows.now) }
{
    rows.iter().map(|row| row.place).collect(alloc)
}

/// The least line of a file that has a row and is not below a line; None exactly where there is none. Files are meant,
/// and marks are met, as by `rows_of`.
pub fn next_line<O: Orders>(
    alloc: Global,
    orders: &mut O,
    bundle: &Bundle<'_>,
    file: &[u8],
    line: u32,
) -> Result<Option<u32>>
    requires named { 0 < length file.now }
    requires numbered { 1 ≤ line }
    ensures value { Gives (λ next. next) result (next_of (bundle_view bundle.now) file.now line) }
    ensures kinds { IfErr result (λ e. IsMemoryOrFormat e.kind) }
{
    let lines = AskedLines::From(line);
    let found = found_rows(alloc, orders, bundle, Asked { file, lines })?;
    Ok(least_line(&found))
}
