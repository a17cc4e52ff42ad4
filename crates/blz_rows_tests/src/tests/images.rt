//! Images with one unit or two, whose lines are known by hand.
use blz_images::dwarf::codes::{DW_AT_COMP_DIR, DW_AT_NAME, DW_AT_STMT_LIST, DW_TAG_COMPILE_UNIT};
use blz_images::{Attribute, ByteOrder, DebugInfo, DebugLine};
use std::alloc::{AllocError, Global};

// `a.c` in /p, with the line table at an offset
fn add_unit(entries: &mut DebugInfo, lines_at: u32) -> Result<(), AllocError> {
    entries.entry(
        DW_TAG_COMPILE_UNIT,
        &[
            Attribute::text(DW_AT_NAME, "a.c"),
            Attribute::text(DW_AT_COMP_DIR, "/p"),
            Attribute::section_offset(DW_AT_STMT_LIST, lines_at),
        ],
    )?;
    entries.end_unit()
}

/// A line table with file 1, `a.c`, in the unit's directory: rows of line 2 at 0x1004 and 0x1015, and the end of the
/// sequence at 0x1018. They begin behind other opcodes.
pub fn two_rows(
    alloc: Global,
    order: ByteOrder,
    version: u16,
    before: &[u8],
) -> Result<Vec<u8>, AllocError> {
    let mut lines = DebugLine::new(alloc, order, version);
    lines.file("a.c", 0)?;
    lines.set_address(0x1000)?;
    lines.raw(before)?;
    // a special opcode, const_add_pc, copy
    lines.raw(&[0x4b, 8, 1])?;
    lines.advance(3)?;
    lines.end_sequence()?;
    lines.bytes()
}

/// An image whose only unit has these lines.
pub fn of_lines(
    alloc: Global,
    order: ByteOrder,
    version: u16,
    lines: &[u8],
) -> Result<Vec<u8>, AllocError> {
    let mut entries = DebugInfo::new(alloc, order, version);
    add_unit(&mut entries, 0)?;
    entries.image(alloc, &[(".debug_line", lines)])
}

/// An image of one unit with the two rows.
pub fn one_unit(alloc: Global) -> Result<Vec<u8>, AllocError> {
    let lines = two_rows(alloc, ByteOrder::Little, 4, b"")?;
    of_lines(alloc, ByteOrder::Little, 4, &lines)
}

/// A line table whose program ends within the operand of advance_pc, so that it has no value.
pub fn cut_short(alloc: Global) -> Result<Vec<u8>, AllocError> {
    let mut lines = DebugLine::new(alloc, ByteOrder::Little, 4);
    lines.file("a.c", 0)?;
    lines.raw(&[2, 0x80])?;
    lines.bytes()
}

/// An image of two units: the first has the two rows, the second these lines.
pub fn two_units(alloc: Global, second: &[u8]) -> Result<Vec<u8>, AllocError> {
    let mut lines = two_rows(alloc, ByteOrder::Little, 4, b"")?;
    let behind = u32::try_from(lines.len()).unwrap_or(0);
    lines.extend_from_slice(second)?;
    let mut entries = DebugInfo::new(alloc, ByteOrder::Little, 4);
    add_unit(&mut entries, 0)?;
    add_unit(&mut entries, behind)?;
    entries.image(alloc, &[(".debug_line", &lines)])
}
