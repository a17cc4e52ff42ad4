//! Rows and places as they are printed.
ghost use Rattle.std.specs.Prelude.{◌≡◌, ◌++◌, OnOk};
ghost use Rattle.blz_listings.specs.ListingViews.{entry_view};
ghost use Rattle.blz_listings.specs.SourcePlaces.{count_line, entry_text, place_text};

use crate::listing::ListedRow;
use blz_program::{push_decimal, push_hex};
use std::alloc::AllocError;

/// Appends a row on a line of its own: its address, the address behind it, and its place.
pub fn push_row(out: &mut Vec<u8>, row: &ListedRow) -> Result<(), AllocError>
    ensures { OnOk result (out.new.items ≡ out.old.items ++ entry_text (entry_view row.now)) }
{
    push_hex(out, row.address)?;
    out.push(b' ')?;
    push_hex(out, row.end)?;
    out.push(b' ')?;
    push_place(out, &row.path, row.line)?;
    out.push(b'\n')?;
    Ok(())
}

/// Appends a place and the number of its rows on a line of their own.
pub fn push_count(out: &mut Vec<u8>, path: &[u8], line: u32, count: u64) -> Result<(), AllocError>
    ensures { OnOk result (out.new.items ≡ out.old.items ++ count_line path.now line count) }
{
    push_place(out, path, line)?;
    out.push(b' ')?;
    push_decimal(out, count)?;
    out.push(b'\n')?;
    Ok(())
}

fn push_place(out: &mut Vec<u8>, path: &[u8], line: u32) -> Result<(), AllocError>
    ensures { OnOk result (out.new.items ≡ out.old.items ++ place_text path.now line) }
{
    out.extend_from_slice(path)?;
    out.push(b':')?;
    push_decimal(out, u64::from(line))
}
