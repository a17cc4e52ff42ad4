//! The rows of all units, put into a listing.
ghost use Rattle.std.specs.Prelude.{◌≡◌, ◌+◌, ◌<◌, IfErr, drop, length, slice_get};
ghost use Rattle.blz_error.specs.declared.kind.ErrorKind.TheVariants.{InvalidDwarf};
ghost use Rattle.blz_model.specs.Part.{Gives};
ghost use Rattle.blz_resolver.specs.BundleViews.{bundle_view};
ghost use Rattle.blz_resolver.specs.FormatKinds.{IsMemoryOrFormat};
ghost use Rattle.blz_resolver.specs.Resolver.{has_debug};
ghost use Rattle.blz_resolver.specs.RowsViews.{rows_view};
ghost use Rattle.blz_resolver.specs.UnitRowsRead.{rows_of, unit_count_of};
ghost use Rattle.blz_rows.specs.Entries.{end_before, entries_in, row_entry, row_entries, sequence_entries};
ghost use Rattle.blz_listings.specs.LineTexts.{lines_text};
ghost use Rattle.blz_listings.specs.Shown.{after, file_path, shown_of};

use crate::listing::{ListedRow, Listing};
use crate::wanted::Wanted;
use blz_bytes::{Orders, Room};
use blz_error::{Error, ErrorKind, Result, Str};
use blz_line::{LineRow, LineSequence};
use blz_program::push_path;
use blz_resolver::{Bundle, ElfResolver, UnitRows};
use std::alloc::Global;

/// The text of the lines of an image, as it is wanted: of the units in their order, their sequences and their rows. Refused
/// by the first mark: those of the frame; then InvalidDwarf for lines without a value, and for a row whose file is not there
/// (DWARF 5 section 6.2).
pub fn lines_text<O: Orders>(
    alloc: Global,
    orders: &mut O,
    bundle: &Bundle<'_>,
    wanted: Wanted,
) -> Result<Vec<u8>>
    ensures value { Gives (λ v. v.items) result (lines_text wanted (bundle_view bundle.now)) }
    ensures kinds { IfErr result (λ e. IsMemoryOrFormat e.kind) }
{
    let listing = listing_of(alloc, orders, bundle, wanted)?;
    Ok(listing.into_text(alloc)?)
}

fn listing_of<O: Orders>(
    alloc: Global,
    orders: &mut O,
    bundle: &Bundle<'_>,
    wanted: Wanted,
) -> Result<Listing>
    ensures value { Gives (λ l. l) result (shown_of wanted (bundle_view bundle.now)) }
    ensures kinds { IfErr result (λ e. IsMemoryOrFormat e.kind) }
{
    gathered(alloc, orders, bundle, wanted)
}

fn gathered<O: Orders>(
    alloc: Global,
    orders: &mut O,
    bundle: &Bundle<'_>,
    wanted: Wanted,
) -> Result<Listing>
    ensures { Gives (λ l. l) result (shown_of wanted (bundle_view bundle.now)) }
{
    let mut resolver = ElfResolver::from_bundle(alloc, orders, bundle)?;
    let room = Room::of(bundle.debug_file().image.len() as u64);
    let mut listing = Listing::new(alloc, wanted, room);
    for unit in 0..resolver.unit_count() {
        push_unit(alloc, orders, &mut resolver, unit, &mut listing)?;
    }
    Ok(listing)
}

// Puts in the rows of the unit of a number.
fn push_unit<O: Orders>(
    alloc: Global,
    orders: &mut O,
    resolver: &mut ElfResolver<'_>,
    unit: usize,
    listing: &mut Listing,
) -> Result<()>
    requires { unit < unit_count_of resolver.old.images (has_debug resolver.old) }
    ensures value { Gives (λ _. listing.new) result (after listing.old
        (entries_in (rows_of resolver.old.images (has_debug resolver.old) unit))) }
    ensures images { resolver.new.images ≡ resolver.old.images }
    ensures has_debug { has_debug resolver.new ≡ has_debug resolver.old }
{
    resolver.fill_unit_rows(alloc, orders, unit)?;
    match resolver.filled_unit_rows(unit)? {
        Some(rows) => push_sequences(alloc, &rows, listing),
        None => Ok(()),
    }
}

// Puts in those of its sequences.
fn push_sequences(alloc: Global, rows: &UnitRows<'_, '_>, listing: &mut Listing) -> Result<()>
    ensures { Gives (λ _. listing.new) result (after listing.old
        (sequence_entries (rows_view rows.now).files (rows_view rows.now).sequences)) }
{
    for sequence in rows.sequences() {
        push_rows(alloc, rows, sequence, listing)?;
    }
    Ok(())
}

// Puts in those of a sequence.
fn push_rows(
    alloc: Global,
    files: &UnitRows<'_, '_>,
    sequence: &LineSequence,
    listing: &mut Listing,
) -> Result<()>
    ensures { Gives (λ _. listing.new) result (after listing.old
        (row_entries (rows_view files.now).files sequence.now.end sequence.now.rows)) }
{
    let rows = sequence.rows();
    for (index, row) in rows.iter().enumerate() {
        let end = end_of(rows, index, sequence.end);
        push_row(alloc, files, *row, end, listing)?;
    }
    Ok(())
}

// Puts in a row, which ends there.
fn push_row(
    alloc: Global,
    files: &UnitRows<'_, '_>,
    row: LineRow,
    end: u64,
    listing: &mut Listing,
) -> Result<()>
    ensures { Gives (λ _. listing.new) result
        (after listing.old (row_entry (rows_view files.now).files row end)) }
{
    let path = path_of(alloc, files, row.file_index)?;
    listing.add(ListedRow {
        path,
        line: row.line,
        address: row.address,
        end,
    })?;
    Ok(())
}

// The path of a file, which has to be there.
fn path_of(alloc: Global, files: &UnitRows<'_, '_>, number: u64) -> Result<Vec<u8>>
    ensures { Gives (λ v. v.items) result
        (file_path (slice_get (rows_view files.now).files number)) }
{
    let Some((dir, file)) = files.file(number) else {
        return Err(no_file());
    };
    let mut path = Vec::new(alloc);
    push_path(&mut path, &dir, file)?;
    Ok(path)
}

// Where the row at an index ends.
fn end_of(rows: &[LineRow], index: usize, end: u64) -> u64
    requires { index < length rows.now }
    ensures { result ≡ end_before end (drop (index + 1) rows.now) }
{
    match rows.get(index + 1) {
        Some(next) => next.address,
        None => end,
    }
}

fn no_file() -> Error
    ensures { result.kind ≡ InvalidDwarf }
{
    Error::new(
        ErrorKind::InvalidDwarf,
        Str::fixed("a row names a file that is not there"),
    )
}
