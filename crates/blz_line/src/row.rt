//! Rows and sequences.
ghost use Rattle.std.specs.Prelude.{◌≡◌};

use std::marker::Model;

/// What a row says of the addresses from its own up to the next row's (DWARF 5 section 6.2).
#[derive(Clone, Copy)]
pub struct LineRow {
    /// The first address.
    pub address: u64,
    /// The number of the file.
    pub file_index: u64,
    /// The line, counted from 1; 0 where there is none.
    pub line: u32,
    /// The column, counted from 1; 0 is the line's begin.
    pub column: u32,
}

/// The rows of the addresses from `start` up to `end`.
#[derive(Drop)]
pub struct LineSequence {
    /// The first address.
    pub start: u64,
    /// The address behind the last.
    pub end: u64,
    rows: Vec<LineRow>,
}

impl Model for LineSequence {
    ghost use Rattle.blz_line.specs.Sequences.{Sequence};

    ghost Value = { Sequence };

    ghost view = { λ s. record { start = s.start; end = s.end; rows = s.rows.items } };
}

impl LineSequence {
    pub(crate) fn new(start: u64, end: u64, rows: Vec<LineRow>) -> LineSequence
        ensures { result ≡ record { start = start; end = end; rows = rows.items } }
    {
        LineSequence { start, end, rows }
    }

    /// The rows, in the order of their addresses.
    pub fn rows(&self) -> &[LineRow]
        ensures { result.now ≡ self.now.rows }
    {
        self.rows.as_slice()
    }
}
