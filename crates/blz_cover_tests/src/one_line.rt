//! An image with one line.
use blz_images::dwarf::codes::*;
use blz_images::{Attribute, ByteOrder, DebugInfo, DebugLine};
use std::alloc::{AllocError, Global};

/// One unit of version 4 in `/p`, whose root announces [0x1000, 0x1020), with a function there. Its line program has rows of
/// line 2 of `a.c` at 0x1004 and 0x1015, up to 0x1018; the row at 0x1015 is of the file with that number.
pub fn one_line(alloc: Global, order: ByteOrder, second_file: u64) -> Result<Vec<u8>, AllocError> {
    let mut entries = DebugInfo::new(alloc, order, 4);
    entries.open(
        DW_TAG_COMPILE_UNIT,
        &[
            Attribute::text(DW_AT_COMP_DIR, "/p"),
            Attribute::section_offset(DW_AT_STMT_LIST, 0),
            Attribute::address(DW_AT_LOW_PC, 0x1000),
            Attribute::data4(DW_AT_HIGH_PC, 0x20),
        ],
    )?;
    entries.function("f", 0x1000, 0x20)?;
    entries.close_unit()?;
    let mut lines = DebugLine::new(alloc, order, 4);
    lines.file("a.c", 0)?;
    lines.set_address(0x1000)?;
    // a special opcode by 4 bytes and one line, and const_add_pc, by 17 bytes
    lines.raw(&[0x4b, 0x08])?;
    lines.set_file(second_file)?;
    lines.row()?;
    lines.advance(3)?;
    lines.end_sequence()?;
    entries.image(alloc, &[(".debug_line", &lines.bytes()?)])
}
