//! The machine that runs a line number program.
ghost use Rattle.std.specs.Prelude.{◌≡◌, ◌≤◌, ◌<◌, ◌+◌, length, IfOk};
ghost use Rattle.blz_info.specs.Contents.{section_view};
ghost use Rattle.blz_line.specs.Program.{first_state, last_is_at, state_of, with_row, row_of, makes_row, ended, run_from, GivesState, NotesOp};
ghost use Rattle.blz_line.specs.Registers.{first_registers};

mod usual;

use crate::broken::broken;
use crate::opcode::{Op, op_at};
use crate::paths::FileEntry;
use crate::program::usual::run_usual;
use crate::registers::Registers;
use crate::row::{LineRow, LineSequence};
use crate::rules::Rules;
use crate::table::Table;
use blz_entry::Section;
use blz_error::Result;
use std::alloc::{AllocError, Global};
use std::marker::Model;
use std::mem;

fn last_is_at(rows: &[LineRow], address: u64) -> bool
    ensures { result ≡ last_is_at rows.now address }
{
    match rows.last() {
        None => false,
        Some(last) => last.address == address,
    }
}

#[inline(always)]
#[tactic(auto, unfolding(crate::specs::Program::with_row))]
fn put_row(rows: &mut Vec<LineRow>, row: LineRow) -> std::result::Result<(), AllocError>
    ensures { IfOk result (λ _. rows.new.items ≡ with_row rows.old.items row) }
{
    if last_is_at(rows, row.address) {
        rows.pop();
    }
    rows.push(row)?;
    Ok(())
}

fn row_of(registers: Registers) -> LineRow
    ensures { result ≡ row_of registers }
{
    LineRow {
        address: registers.address,
        file_index: registers.file,
        line: (registers.line % (1 << 32)) as u32,
        column: (registers.column % (1 << 32)) as u32,
    }
}

/// What a program gave so far, beside its registers: these stand apart, so that they stay out of memory.
#[derive(Drop)]
pub struct Given {
    rows: Vec<LineRow>,
    sequences: Vec<LineSequence>,
    files: Table<FileEntry>,
}

impl Model for Given {
    ghost use Rattle.blz_line.specs.Program.{Given};

    ghost Value = { Given };

    ghost view = { λ g. record { rows = g.rows.items; sequences = g.sequences.items; files = g.files } };
}

impl Given {
    /// Before the first opcode, with the files of the header.
    fn new(alloc: Global, files: Table<FileEntry>) -> Given
        ensures { state_of first_registers result ≡ first_state files }
    {
        Given {
            rows: Vec::new(alloc),
            sequences: Vec::new(alloc),
            files,
        }
    }

    /// The sequences that have ended, and the files.
    pub fn into_parts(self) -> (Vec<LineSequence>, Table<FileEntry>)
        ensures sequences { result.0.items ≡ self.sequences }
        ensures files { result.1 ≡ self.files }
    {
        (self.sequences, self.files)
    }

    /// Makes a row of the registers, unless the sequence is skipped.
    #[inline(always)]
    fn make_row(&mut self, registers: Registers) -> std::result::Result<(), AllocError>
        ensures { IfOk result
            (λ _. state_of registers self.new ≡ makes_row (state_of registers self.old)) }
    {
        if !registers.skipping {
            put_row(&mut self.rows, row_of(registers))?;
        }
        Ok(())
    }

    /// Notes what an opcode does that left the registers so, and gives the registers behind it.
    fn noted(&mut self, alloc: Global, registers: Registers, op: Op) -> Result<Registers>
        ensures { NotesOp op registers self.old self.new result }
    {
        match op {
            Op::Special(_) | Op::Copy => self.make_row(registers)?,
            Op::EndSequence => {
                self.end(alloc, registers)?;
                return Ok(Registers::first());
            }
            Op::DefineFile(file) => self.files.push(file)?,
            _ => {}
        }
        Ok(registers)
    }

    #[tactic(auto, unfolding(crate::specs::Program::ended))]
    fn end(&mut self, alloc: Global, registers: Registers) -> std::result::Result<(), AllocError>
        ensures { IfOk result
            (λ _. state_of first_registers self.new ≡ ended (state_of registers self.old)) }
    {
        let mut rows = mem::replace(&mut self.rows, Vec::new(alloc));
        // rows are most of what a reader keeps, so no room is left behind them
        rows.shrink_to_fit();
        if !registers.skipping && !rows.is_empty() {
            let start = rows[0].address;
            let end = registers.address;
            self.sequences.push(LineSequence::new(start, end, rows))?;
        }
        Ok(())
    }
}

/// Runs the program of a header with some files, from an offset to the end of the section's bytes; InvalidDwarf where it
/// has no value.
pub fn run(
    alloc: Global,
    rules: Rules,
    counts: &[u8],
    section: &Section<'_, '_>,
    at: usize,
    files: Table<FileEntry>,
) -> Result<Given>
    requires within { at ≤ length section.now.bytes.now }
    requires counted { rules.opcode_base ≤ length counts.now + 1 }
    requires ops { 0 < rules.max_ops }
    requires range { 0 < rules.line_range }
    ensures { GivesState
        (run_from rules counts.now (section_view section.now) (first_state files) at) result }
{
    let mut given = Given::new(alloc, files);
    let mut registers = Registers::first();
    let mut offset = at;
    loop {
        offset = run_usual(rules, section.bytes, offset, &mut registers, &mut given)?;
        if offset >= section.bytes.len() {
            return Ok(given);
        }
        let Some((op, next)) = op_at(rules, counts, section, offset) else {
            return Err(broken());
        };
        let Some(moved) = registers.moved_by(rules, op) else {
            return Err(broken());
        };
        registers = given.noted(alloc, moved, op)?;
        offset = next;
    }
}
