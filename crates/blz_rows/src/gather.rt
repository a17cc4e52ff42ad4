//! The rows that are asked, of all units.
ghost use Rattle.std.specs.Prelude.{◌≡◌, ◌+◌, ◌<◌, IfErr, drop, length};
ghost use Rattle.blz_error.specs.declared.kind.ErrorKind.TheVariants.{InvalidDwarf};
ghost use Rattle.blz_model.specs.Part.{Gives};
ghost use Rattle.blz_resolver.specs.BundleViews.{bundle_view};
ghost use Rattle.blz_resolver.specs.FormatKinds.{IsMemoryOrFormat};
ghost use Rattle.blz_resolver.specs.Resolver.{has_debug};
ghost use Rattle.blz_resolver.specs.RowsViews.{rows_view};
ghost use Rattle.blz_resolver.specs.UnitRowsRead.{rows_of, unit_count_of};
ghost use Rattle.blz_rows.specs.Asking.{behind, found_for};
ghost use Rattle.blz_rows.specs.Entries.{end_before, entries_in, row_entry, row_entries, sequence_entries};

use crate::asked::{Asked, AskedLines};
use crate::found::FoundRow;
use crate::judged::JudgedFiles;
use crate::places::Place;
use crate::verdict::Verdict;
use blz_bytes::{Orders, Room};
use blz_error::{Error, ErrorKind, Result, Str};
use blz_line::{LineRow, LineSequence};
use blz_resolver::{Bundle, ElfResolver, UnitRows};
use std::alloc::Global;

// Units may share a line program, whose rows are looked at for each of them: how many for a word.
const ROWS_A_WORD: u64 = 8;

// The words of a row that was found: its own, and those of its addresses in what is answered, in vectors that may have
// grown to twice their length.
const FOUND_WORDS: u64 = 8;

/// The rows that are asked, in the order of the units, their sequences and their rows. Refused by the first mark: those of
/// the frame; then InvalidDwarf for lines without a value, and for a row whose file is not there, asked or not.
pub fn found_rows<O: Orders>(
    alloc: Global,
    orders: &mut O,
    bundle: &Bundle<'_>,
    asked: Asked<'_>,
) -> Result<Vec<FoundRow>>
    ensures value { Gives (λ v. v.items) result (found_for (bundle_view bundle.now) asked.entry.file.now asked.entry.lines) }
    ensures kinds { IfErr result (λ e. IsMemoryOrFormat e.kind) }
{
    gathered(alloc, orders, bundle, asked)
}

fn gathered<O: Orders>(
    alloc: Global,
    orders: &mut O,
    bundle: &Bundle<'_>,
    asked: Asked<'_>,
) -> Result<Vec<FoundRow>>
    ensures { Gives (λ v. v.items) result (found_for (bundle_view bundle.now) asked.entry.file.now asked.entry.lines) }
{
    let mut resolver = ElfResolver::from_bundle(alloc, orders, bundle)?;
    let mut room = Room::of(bundle.debug_file().image.len() as u64);
    let mut found = Vec::new(alloc);
    for unit in 0..resolver.unit_count() {
        push_unit(
            alloc,
            orders,
            &mut resolver,
            unit,
            asked,
            &mut room,
            &mut found,
        )?;
    }
    Ok(found)
}

// Adds the rows of the unit of a number that are asked.
fn push_unit<O: Orders>(
    alloc: Global,
    orders: &mut O,
    resolver: &mut ElfResolver<'_>,
    unit: usize,
    asked: Asked<'_>,
    room: &mut Room,
    found: &mut Vec<FoundRow>,
) -> Result<()>
    requires { unit < unit_count_of resolver.old.images (has_debug resolver.old) }
    ensures value { Gives (λ _. found.new.items) result (behind found.old.items asked.entry.file.now asked.entry.lines
        (entries_in (rows_of resolver.old.images (has_debug resolver.old) unit))) }
    ensures images { resolver.new.images ≡ resolver.old.images }
    ensures has_debug { has_debug resolver.new ≡ has_debug resolver.old }
{
    resolver.fill_unit_rows(alloc, orders, unit)?;
    match resolver.filled_unit_rows(unit)? {
        Some(rows) => push_sequences(alloc, rows, asked, room, found),
        None => Ok(()),
    }
}

// Adds those of its sequences.
fn push_sequences(
    alloc: Global,
    rows: UnitRows<'_, '_>,
    asked: Asked<'_>,
    room: &mut Room,
    found: &mut Vec<FoundRow>,
) -> Result<()>
    ensures { Gives (λ _. found.new.items) result (behind found.old.items asked.entry.file.now asked.entry.lines
        (sequence_entries (rows_view rows.entry).files (rows_view rows.entry).sequences)) }
{
    let mut files = JudgedFiles::new(alloc, rows, asked.file)?;
    for sequence in rows.sequences() {
        push_rows(&mut files, asked.lines, sequence, room, found)?;
    }
    Ok(())
}

// Adds those of a sequence.
fn push_rows(
    files: &mut JudgedFiles<'_, '_, '_>,
    lines: AskedLines,
    sequence: &LineSequence,
    room: &mut Room,
    found: &mut Vec<FoundRow>,
) -> Result<()>
    ensures value { Gives (λ _. found.new.items) result (behind found.old.items files.old.name lines
        (row_entries files.old.files sequence.now.end sequence.now.rows)) }
    ensures same { files.new ≡ files.old }
{
    let rows = sequence.rows();
    room.take(rows.len() as u64 / ROWS_A_WORD)?;
    for (index, row) in rows.iter().enumerate() {
        let end = end_of(rows, index, sequence.end);
        push_row(files, lines, *row, end, room, found)?;
    }
    Ok(())
}

// Adds a row, if it is asked; the path of another file is not made.
fn push_row(
    files: &mut JudgedFiles<'_, '_, '_>,
    lines: AskedLines,
    row: LineRow,
    end: u64,
    room: &mut Room,
    found: &mut Vec<FoundRow>,
) -> Result<()>
    ensures value { Gives (λ _. found.new.items) result (behind found.old.items files.old.name lines (row_entry files.old.files row end)) }
    ensures same { files.new ≡ files.old }
{
    match files.verdict(row.file_index) {
        Verdict::Absent => return Err(no_file()),
        Verdict::Other => {}
        Verdict::Meant => {
            if lines.has(row.line) {
                room.take(FOUND_WORDS)?;
                found.push(found_row(row, end))?;
            }
        }
    }
    Ok(())
}

// Where the row at an index ends.
fn end_of(rows: &[LineRow], index: usize, end: u64) -> u64
    requires { index < length rows.now }
    ensures { result ≡ end_before end (drop (index + 1) rows.now) }
{
    match rows.get(index + 1) {
        Some(next) => next.address,
        None => end,
    }
}

fn found_row(row: LineRow, end: u64) -> FoundRow
    ensures { result ≡ record { line = row.line; place = record { address = row.address; end = end } } }
{
    FoundRow {
        line: row.line,
        place: Place {
            address: row.address,
            end,
        },
    }
}

fn no_file() -> Error
    ensures { result.kind ≡ InvalidDwarf }
{
    Error::new(
        ErrorKind::InvalidDwarf,
        Str::fixed("a row names a file that is not there"),
    )
}
