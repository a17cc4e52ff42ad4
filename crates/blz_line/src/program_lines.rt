//! The table of a line program, which the units that read it alike share.
ghost use Rattle.std.specs.Prelude.{◌≡◌, map, slice_get, IfOk};
ghost use Rattle.std.specs.Arc.{arc_value};
ghost use Rattle.blz_bytes.specs.ToldPlaces.{counting};
ghost use Rattle.blz_error.specs.declared.kind.ErrorKind.TheVariants.{InvalidDwarf};
ghost use Rattle.blz_model.specs.Part.{Gives, or_mark};
ghost use Rattle.blz_ranges.specs.Best.{best};
ghost use Rattle.blz_ranges.specs.Keyed.{IsAccepted, begin_key};
ghost use Rattle.blz_line.specs.HeaderFacts.{IsInside, IsReady};
ghost use Rattle.blz_line.specs.Headers.{rules_of};
ghost use Rattle.blz_line.specs.Lookups.{spans_of, row_in};
ghost use Rattle.blz_line.specs.ProgramFiles.{files_by};
ghost use Rattle.blz_line.specs.ProgramTables.{program_table, program_at};
ghost use Rattle.blz_line.specs.RowOrder.{AreRising};
ghost use Rattle.blz_line.specs.TableView.{table_view};

use crate::files::{FilePlaces, ProgramFiles, UnitNames};
use crate::header::{LineHeader, header_at};
use crate::lookup::{row_at, spans_of};
use crate::naming::Namer;
use crate::program::run;
use crate::row::{LineRow, LineSequence};
use blz_bytes::{Key, Orders, Room, check_pairs};
use blz_entry::{Sections, UnitHeader, UnitRoot, cut};
use blz_error::Result;
use blz_ranges::{RangeIndex, Span};
use std::alloc::{AllocError, Global};
use std::marker::Model;
use std::sync::Arc;

/// What a row takes of a file's room.
const ROW_WORDS: u64 = 3;

/// The sequences of a line program, and its files as a unit without names has them.
#[derive(Drop)]
pub struct ProgramLines {
    sequences: Arc<Vec<LineSequence>>,
    files: ProgramFiles,
    index: Arc<RangeIndex>,
}

impl Model for ProgramLines {
    ghost use Rattle.blz_line.specs.ProgramTables.{OrderedProgram};

    ghost Value = { OrderedProgram };

    ghost use Rattle.blz_line.specs.LinesFields.{lines_value, AreIndexed};

    ghost view = { lines_value };

    ghost invariant = { AreIndexed };
}

/// A table before its order.
#[derive(Drop)]
struct Unordered {
    sequences: Vec<LineSequence>,
    files: ProgramFiles,
}

/// What the rows of some sequences take of a file's room.
fn rows_words(sequences: &[LineSequence]) -> u64 {
    let mut rows: u64 = 0;
    for sequence in sequences {
        rows = rows.saturating_add(sequence.rows().len() as u64);
    }
    rows.saturating_mul(ROW_WORDS)
}

/// Reads the table of a header and runs its program. The bytes of the program, its rows and its files take of the room.
#[tactic(auto, unfolding(crate::specs::ProgramTables::program_table, crate::specs::UnitLines::program_of))]
fn table_of(
    alloc: Global,
    room: &mut Room,
    sections: &Sections<'_, '_>,
    unit: &UnitHeader,
    root: &UnitRoot,
    header: LineHeader,
) -> Result<Unordered>
    requires ready { IsReady (rules_of header) }
    requires inside { IsInside header sections.now.line.bytes.now }
    ensures value { Gives table_view result
        (or_mark (program_table sections.now unit.now root.now header) InvalidDwarf) }
    ensures rising { IfOk result (λ t. AreRising (table_view t).sequences) }
{
    let rules = header.rules();
    let program = header.program;
    let line = cut(&sections.line, header.end);
    let counts = header.counts(&sections.line);
    room.take(header.end.saturating_sub(program) as u64)?;
    let (directories, files) = header.into_paths();
    let given = run(alloc, rules, counts, &line, program, files)?;
    let (sequences, entries) = given.into_parts();
    room.take(rows_words(sequences.as_slice()))?;
    let namer = Namer {
        sections,
        unit,
        root,
        version: rules.version,
        directories: &directories,
    };
    let files = namer.files_of(alloc, room, &entries)?;
    Ok(Unordered { sequences, files })
}

/// The table at an offset of `.debug_line`.
#[tactic(auto, unfolding(crate::specs::ProgramTables::program_at))]
fn table_at(
    alloc: Global,
    room: &mut Room,
    sections: &Sections<'_, '_>,
    unit: &UnitHeader,
    root: &UnitRoot,
    at: u64,
) -> Result<Unordered>
    ensures value { Gives table_view result
        (or_mark (program_at sections.now unit.now root.now at) InvalidDwarf) }
    ensures rising { IfOk result (λ t. AreRising (table_view t).sequences) }
{
    let header = header_at(alloc, room, &sections.line, at as usize, unit.address_size)?;
    table_of(alloc, room, sections, unit, root, header)
}

/// The keys of ranges by their begins.
fn begin_keys(alloc: Global, spans: &[Span]) -> std::result::Result<Vec<Key>, AllocError>
    ensures { IfOk result (λ v. v.items ≡ map begin_key spans.now) }
{
    spans
        .iter()
        .map(|span| Key {
            first: span.begin,
            second: 0,
        })
        .collect(alloc)
}

/// The first so many numbers.
fn counting(alloc: Global, count: usize) -> std::result::Result<Vec<usize>, AllocError>
    ensures { IfOk result (λ v. v.items ≡ counting count) }
{
    let mut places = Vec::with_capacity(alloc, count)?;
    for place in 0..count {
        places.push(place)?;
    }
    Ok(places)
}

/// Whether an order of ranges by their begins passes the check, as it is told when it is asked for.
fn is_accepted<O: Orders>(
    alloc: Global,
    orders: &mut O,
    spans: &[Span],
) -> std::result::Result<bool, AllocError>
    ensures { IfOk result (λ ordered. IsAccepted O.pair_places (map begin_key spans.now) ordered) }
{
    let keys = begin_keys(alloc, spans)?;
    let mut places = counting(alloc, keys.len())?;
    orders.by_pair(keys.as_slice(), places.as_mut_slice());
    Ok(check_pairs(keys.as_slice(), places.as_slice()))
}

impl ProgramLines {
    /// Asks for an order of the sequences, and keeps it where it passes the check.
    fn new<O: Orders>(
        alloc: Global,
        orders: &mut O,
        table: Unordered,
    ) -> std::result::Result<ProgramLines, AllocError>
        requires { AreRising (table_view table).sequences }
        ensures table { IfOk result (λ l. l.table ≡ table_view table) }
        ensures accepted { IfOk result (λ l. IsAccepted O.pair_places
            (map begin_key (spans_of l.table.sequences)) l.ordered) }
    {
        let Unordered { sequences, files } = table;
        let spans = spans_of(alloc, sequences.as_slice())?;
        let order = RangeIndex::build(alloc, orders, spans)?;
        let sequences = Arc::new(alloc, sequences)?;
        let index = Arc::new(alloc, order)?;
        Ok(ProgramLines {
            sequences,
            files,
            index,
        })
    }

    /// The table of the line program at an offset, as a unit reads it; InvalidDwarf exactly where that, or the string of a
    /// file, has no value. What is read and kept takes of the room.
    pub fn parse<O: Orders>(
        alloc: Global,
        room: &mut Room,
        orders: &mut O,
        sections: &Sections<'_, '_>,
        header: &UnitHeader,
        root: &UnitRoot,
        at: u64,
    ) -> Result<ProgramLines>
        ensures value { Gives (λ p. p.table) result
            (or_mark (program_at sections.now header.now root.now at) InvalidDwarf) }
        ensures accepted { IfOk result (λ p. IsAccepted O.pair_places
            (map begin_key (spans_of p.table.sequences)) p.ordered) }
    {
        let table = table_at(alloc, room, sections, header, root, at)?;
        Ok(ProgramLines::new(alloc, orders, table)?)
    }

    /// The same table once more.
    pub fn share(&self) -> std::result::Result<ProgramLines, AllocError>
        ensures { IfOk result (λ p. p ≡ self.now) }
    {
        let sequences = Arc::try_clone(&self.sequences)?;
        let files = self.files.share()?;
        let index = Arc::try_clone(&self.index)?;
        Ok(ProgramLines {
            sequences,
            files,
            index,
        })
    }

    /// The same table with the order that is told now, which is kept once where it is accepted as before.
    pub fn asked_again<O: Orders>(
        &self,
        alloc: Global,
        orders: &mut O,
    ) -> std::result::Result<ProgramLines, AllocError>
        ensures table { IfOk result (λ p. p.table ≡ self.now.table) }
        ensures accepted { IfOk result (λ p. IsAccepted O.pair_places
            (map begin_key (spans_of p.table.sequences)) p.ordered) }
    {
        let spans = spans_of(alloc, self.sequences.as_slice())?;
        let ordered = is_accepted(alloc, orders, spans.as_slice())?;
        if ordered == self.index.is_ordered() {
            return self.share();
        }
        let order = RangeIndex::build(alloc, orders, spans)?;
        let sequences = Arc::try_clone(&self.sequences)?;
        let files = self.files.share()?;
        let index = Arc::new(alloc, order)?;
        Ok(ProgramLines {
            sequences,
            files,
            index,
        })
    }

    /// Whether the order of the sequences was accepted.
    pub fn is_ordered(&self) -> bool
        ensures { result ≡ self.now.ordered }
    {
        self.index.is_ordered()
    }

    /// The sequences, in the order of the program.
    pub fn sequences(&self) -> &[LineSequence]
        ensures { result.now ≡ self.now.table.sequences }
    {
        self.sequences.as_slice()
    }

    /// The file of a number, counted from 0, in a unit with some names.
    pub fn file(&self, names: &UnitNames, index: u64) -> Option<FilePlaces>
        ensures { result
            ≡ slice_get (files_by names.now self.now.table.first self.now.table.files) index }
    {
        self.files.get(names, index)
    }

    fn best_index(&self, addr: u64) -> Option<usize>
        ensures { result ≡ best (spans_of self.now.table.sequences) addr }
    {
        self.index.find(addr)
    }

    /// The last row that does not begin behind an address, in the sequence that covers it and begins last.
    pub fn row_in(&self, addr: u64) -> Option<LineRow>
        ensures { result ≡ row_in self.now.table.sequences addr }
    {
        let index = self.best_index(addr)?;
        let sequence = self.sequences.get(index)?;
        row_at(sequence.rows(), addr)
    }
}
