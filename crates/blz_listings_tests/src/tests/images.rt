//! Images with one unit or two, whose lines are known by hand.
use blz_images::dwarf::codes::{DW_AT_COMP_DIR, DW_AT_NAME, DW_AT_STMT_LIST, DW_TAG_COMPILE_UNIT};
use blz_images::{Attribute, ByteOrder, DebugInfo, DebugLine};
use std::alloc::{AllocError, Global};

// advance_line (DWARF 5 section 6.2.5.2), whose operand is a signed LEB128 number, here of one byte
const ADVANCE_LINE: u8 = 3;

const MINUS_FIVE: u8 = 0x7b;

pub const MINUS_ONE: u8 = 0x7f;

// Lines with these files, in the unit's directory.
fn lines_of(alloc: Global, files: &[&str]) -> Result<DebugLine, AllocError> {
    let mut lines = DebugLine::new(alloc, ByteOrder::Little, 4);
    for file in files {
        lines.file(file, 0)?;
    }
    Ok(lines)
}

/// Lines in which `a.c` has line 2 at 0x1000 and 0x1008, and `b.c` has line 7 at 0x1004. They end at 0x1010.
pub fn three_rows(alloc: Global) -> Result<Vec<u8>, AllocError> {
    let mut lines = lines_of(alloc, &["a.c", "b.c"])?;
    lines.set_address(0x1000)?;
    lines.advance_line(1)?;
    lines.row()?;
    lines.advance(4)?;
    lines.set_file(2)?;
    lines.advance_line(5)?;
    lines.row()?;
    lines.advance(4)?;
    lines.set_file(1)?;
    lines.raw(&[ADVANCE_LINE, MINUS_FIVE])?;
    lines.row()?;
    lines.advance(8)?;
    lines.end_sequence()?;
    lines.bytes()
}

/// Lines whose only row has this line of `a.c`, from 0x2000 up to 0x2004. It is line 1, and
/// an advance that is one byte of a signed LEB128 number.
pub fn one_row(alloc: Global, advance: u8) -> Result<Vec<u8>, AllocError> {
    let mut lines = lines_of(alloc, &["a.c"])?;
    lines.set_address(0x2000)?;
    lines.raw(&[ADVANCE_LINE, advance])?;
    lines.row()?;
    lines.advance(4)?;
    lines.end_sequence()?;
    lines.bytes()
}

/// Lines whose program ends within the operand of advance_pc, so that they have no value.
pub fn cut_short(alloc: Global) -> Result<Vec<u8>, AllocError> {
    let mut lines = lines_of(alloc, &["a.c"])?;
    lines.raw(&[2, 0x80])?;
    lines.bytes()
}

// `a.c` in /p, with the lines at an offset
fn add_unit(entries: &mut DebugInfo, lines_at: u32) -> Result<(), AllocError> {
    entries.entry(
        DW_TAG_COMPILE_UNIT,
        &[
            Attribute::text(DW_AT_NAME, "a.c"),
            Attribute::text(DW_AT_COMP_DIR, "/p"),
            Attribute::section_offset(DW_AT_STMT_LIST, lines_at),
        ],
    )?;
    entries.end_unit()
}

/// An image of two units, each with its lines.
pub fn two_units(alloc: Global, first: &[u8], second: &[u8]) -> Result<Vec<u8>, AllocError> {
    let mut lines = Vec::new(alloc);
    lines.extend_from_slice(first)?;
    lines.extend_from_slice(second)?;
    let mut entries = DebugInfo::new(alloc, ByteOrder::Little, 4);
    add_unit(&mut entries, 0)?;
    add_unit(&mut entries, u32::try_from(first.len()).unwrap_or(0))?;
    entries.image(alloc, &[(".debug_line", &lines)])
}
