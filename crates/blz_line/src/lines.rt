//! The line table of a unit, and the line of an address in it.
ghost use Rattle.std.specs.Prelude.{◌≡◌, map, slice_get, IfOk, IfSome};
ghost use Rattle.std.specs.Option.{option_map};
ghost use Rattle.blz_model.specs.Part.{Gives, Exactly};
ghost use Rattle.blz_ranges.specs.Keyed.{IsAccepted, begin_key};
ghost use Rattle.blz_line.specs.FileNames.{file_text};
ghost use Rattle.blz_line.specs.Lookups.{spans_of, site_of, line_at, location_view};
ghost use Rattle.blz_line.specs.ProgramFiles.{names_of};
ghost use Rattle.blz_line.specs.ProgramTables.{unit_table};
ghost use Rattle.blz_line.specs.UnitLines.{OrderedLines, lines_of};

use crate::broken::broken;
use crate::files::{UnitNames, file_text};
use crate::program_lines::ProgramLines;
use crate::row::{LineRow, LineSequence};
use blz_bytes::{DirPath, Orders, Room};
use blz_entry::{Sections, Texts, UnitHeader, UnitRoot};
use blz_error::Result;
use std::alloc::Global;
use std::marker::Model;

/// A place in a source.
#[derive(Drop)]
pub struct Location<'b> {
    /// The directory of the file.
    pub dir: DirPath<'b>,
    /// The file's name.
    pub file: &'b [u8],
    /// The line, counted from 1; none where the row tells none.
    pub line: Option<u32>,
    /// The column, counted from 1, or 0 for the line's begin; none where the row tells no line.
    pub column: Option<u32>,
}

/// The sequences and the files of a unit.
#[derive(Drop)]
pub struct Lines {
    program: ProgramLines,
    names: UnitNames,
}

impl Model for Lines {
    ghost use Rattle.blz_line.specs.ProgramTables.{unit_table};
    ghost use Rattle.blz_line.specs.UnitLines.{OrderedLines};

    ghost Value = { OrderedLines };

    ghost view = { λ l. record { table = unit_table l.names l.program.table; ordered = l.program.ordered } };
}

impl Lines {
    /// The lines of a unit whose line program this is.
    pub fn of_unit(program: ProgramLines, root: &UnitRoot) -> Lines
        ensures table { result.table ≡ unit_table (names_of root.now) program.table }
        ensures ordered { result.ordered ≡ program.ordered }
    {
        Lines {
            program,
            names: UnitNames::of(root),
        }
    }

    /// The sequences and the files that the line program of a unit gives; None exactly where its root tells no line
    /// program, and InvalidDwarf exactly where that, or the string of a file, has no value.
    pub fn parse<O: Orders>(
        alloc: Global,
        orders: &mut O,
        sections: &Sections<'_, '_>,
        header: &UnitHeader,
        root: &UnitRoot,
    ) -> Result<Option<Lines>>
        ensures value { Gives (λ lines. option_map (λ (l : OrderedLines). l.table) lines) result
            (lines_of sections.now header.now root.now) }
        ensures accepted { IfOk result (λ lines. IfSome lines (λ (l : OrderedLines).
            IsAccepted O.pair_places (map begin_key (spans_of l.table.sequences)) l.ordered)) }
    {
        let Some(at) = root.line else {
            return Ok(None);
        };
        let mut room = Room::endless();
        let program = ProgramLines::parse(alloc, &mut room, orders, sections, header, root, at)?;
        Ok(Some(Lines::of_unit(program, root)))
    }

    /// Whether the order of the sequences was accepted.
    pub fn is_ordered(&self) -> bool
        ensures { result ≡ self.now.ordered }
    {
        self.program.is_ordered()
    }

    /// The sequences, in the order of the program.
    pub fn sequences(&self) -> &[LineSequence]
        ensures { result.now ≡ self.now.table.sequences }
    {
        self.program.sequences()
    }

    /// The directory and the name of the file of a number, counted from 0; None exactly where the table has no such file.
    /// The texts are those of the sections that were parsed.
    pub fn file<'b>(&self, texts: &Texts<'b>, index: u64) -> Option<(DirPath<'b>, &'b [u8])>
        ensures { option_map (λ file. (file.0, file.1.now)) result
            ≡ option_map (file_text texts.now) (slice_get self.now.table.files index) }
    {
        let file = self.program.file(&self.names, index)?;
        Some(file_text(texts, &file))
    }

    /// The place in the sources of an address: the last row that does not begin behind it, in the sequence that covers it
    /// and begins last; None where no sequence covers it. InvalidDwarf exactly where the row's file is not in the table.
    /// The texts are those of the sections that were parsed.
    #[tactic(auto, unfolding(crate::specs::Lookups::row_site))]
    pub fn find_location<'b>(&self, texts: &Texts<'b>, addr: u64) -> Result<Option<Location<'b>>>
        ensures { Exactly (λ o. option_map location_view o) result
            (line_at texts.now self.now.table addr) }
    {
        let Some(row) = self.program.row_in(addr) else {
            return Ok(None);
        };
        match self.file(texts, row.file_index) {
            Some((dir, file)) => Ok(Some(located(dir, file, row))),
            None => Err(broken()),
        }
    }
}

/// A row in its file.
fn located<'b>(dir: DirPath<'b>, file: &'b [u8], row: LineRow) -> Location<'b>
    ensures { location_view result ≡ site_of (dir.entry, file.entry.now) row }
{
    if row.line == 0 {
        return Location {
            dir,
            file,
            line: None,
            column: None,
        };
    }
    Location {
        dir,
        file,
        line: Some(row.line),
        column: Some(row.column),
    }
}
