//! An executable as compilers make it.
use crate::dwarf::codes::*;
use crate::dwarf::tables::{
    INDEX_BASE, RANGE_LISTS_BASE, address_ranges, address_table, range_lists, string_offsets,
};
use crate::{Attribute, ByteOrder, DebugInfo, DebugLine, Image, Strings};
use std::alloc::{AllocError, Global};

/// SHT_PROGBITS.
const BYTES: u32 = 1;

/// An executable of DWARF 5 with two units in `/home/u/p`, with texts and addresses by index, range lists, address
/// ranges, and file names in `.debug_line_str`.
///
/// A C unit has `main` at [0x1140, 0x1180), into which `square` is inlined at [0x1150, 0x1158), called in line 7 and
/// column 9 of `main.c`; the row at 0x1150 is line 3, column 12 of `sq.h`. A Rust unit has a function with a linkage
/// name at [0x1200, 0x1260), and a row of line 10, column 1 of `src/lib.rs`. `.symtab` has `_start` at 0x1100, of 34
/// bytes, which no unit announces.
pub fn realistic_walk(alloc: Global, order: ByteOrder) -> Result<Vec<u8>, AllocError> {
    let mut texts = Strings::new(alloc)?;
    let mut offsets = Vec::new(alloc);
    for text in [
        "main.c",
        "/home/u/p",
        "main",
        "square",
        "lib.rs",
        "_ZN3lib3run17h0123456789abcdefE",
    ] {
        offsets.push(texts.put(text)?)?;
    }
    let mut paths = Strings::new(alloc)?;
    let c_lines = c_lines(alloc, order, &mut paths)?;
    let rust_lines = rust_lines(alloc, order, &mut paths)?;
    let rust_lines_at = u32::try_from(c_lines.len()).unwrap_or(0);
    let mut lines = c_lines;
    lines.extend_from_slice(&rust_lines)?;

    let mut entries = DebugInfo::new(alloc, order, 5);
    c_unit(&mut entries)?;
    let rust_unit_at = entries.unit_offset();
    rust_unit(&mut entries, rust_lines_at)?;
    let abbreviations = entries.abbreviations()?;
    let mut sets = address_ranges(alloc, order, 0, &[(0x1140, 0x40)])?;
    sets.extend_from_slice(&address_ranges(alloc, order, rust_unit_at, &[(0x1200, 0x60)])?)?;
    // behind two offsets: from the first address on, [0, 0x40); from the third, 0x60 bytes
    let lists = [1, 0, 4, 0, 0x40, 0, 3, 2, 0x60, 0];
    let string_offsets = string_offsets(alloc, order, &offsets)?;
    let addresses = address_table(alloc, order, &[0x1140, 0x1150, 0x1200])?;
    let lists = range_lists(alloc, order, &[8, 14], &lists)?;

    Image::elf64(alloc)
        .in_order(order)
        .symbol("_start", 0x1100, 34)?
        .section(".debug_abbrev", BYTES, &abbreviations)?
        .section(".debug_addr", BYTES, &addresses)?
        .section(".debug_aranges", BYTES, &sets)?
        .section(".debug_info", BYTES, entries.info())?
        .section(".debug_line", BYTES, &lines)?
        .section(".debug_line_str", BYTES, paths.bytes())?
        .section(".debug_rnglists", BYTES, &lists)?
        .section(".debug_str", BYTES, texts.bytes())?
        .section(".debug_str_offsets", BYTES, &string_offsets)?
        .bytes()
}

// the root of a unit, whose name is a text by its index, and whose ranges are a list by its index
fn open_unit(
    entries: &mut DebugInfo,
    name: u64,
    language: Attribute<'_>,
    lines_at: u32,
    ranges: u64,
) -> Result<(), AllocError> {
    entries.open(
        DW_TAG_COMPILE_UNIT,
        &[
            Attribute::text_at(DW_AT_NAME, name),
            Attribute::text_at(DW_AT_COMP_DIR, 1),
            language,
            Attribute::section_offset(DW_AT_STMT_LIST, lines_at),
            Attribute::section_offset(DW_AT_STR_OFFSETS_BASE, INDEX_BASE),
            Attribute::section_offset(DW_AT_ADDR_BASE, INDEX_BASE),
            Attribute::section_offset(DW_AT_RNGLISTS_BASE, RANGE_LISTS_BASE),
            Attribute::ranges_at(DW_AT_RANGES, ranges),
        ],
    )
}

// `main`, and `square` inlined into it
fn c_unit(entries: &mut DebugInfo) -> Result<(), AllocError> {
    // DW_LANG_C11
    open_unit(entries, 0, Attribute::data1(DW_AT_LANGUAGE, 0x1d), 0, 0)?;
    let square = entries.place();
    // DW_INL_inlined
    let inlined = Attribute::data1(DW_AT_INLINE, 1);
    entries.entry(
        DW_TAG_SUBPROGRAM,
        &[Attribute::text_at(DW_AT_NAME, 3), inlined],
    )?;
    entries.open(
        DW_TAG_SUBPROGRAM,
        &[
            Attribute::text_at(DW_AT_NAME, 2),
            Attribute::address_at(DW_AT_LOW_PC, 0),
            Attribute::data4(DW_AT_HIGH_PC, 0x40),
        ],
    )?;
    entries.entry(
        DW_TAG_INLINED_SUBROUTINE,
        &[
            Attribute::reference(DW_AT_ABSTRACT_ORIGIN, square),
            Attribute::address_at(DW_AT_LOW_PC, 1),
            Attribute::data1(DW_AT_HIGH_PC, 8),
            Attribute::data1(DW_AT_CALL_FILE, 0),
            Attribute::data1(DW_AT_CALL_LINE, 7),
            Attribute::data1(DW_AT_CALL_COLUMN, 9),
        ],
    )?;
    entries.close()?;
    entries.close()?;
    entries.end_unit()
}

// a function with a linkage name alone
fn rust_unit(entries: &mut DebugInfo, lines_at: u32) -> Result<(), AllocError> {
    // DW_LANG_Rust
    let language = Attribute::data2(DW_AT_LANGUAGE, 0x1c);
    open_unit(entries, 4, language, lines_at, 1)?;
    entries.entry(
        DW_TAG_SUBPROGRAM,
        &[
            Attribute::text_at(DW_AT_LINKAGE_NAME, 5),
            Attribute::address_at(DW_AT_LOW_PC, 2),
            Attribute::data4(DW_AT_HIGH_PC, 0x60),
        ],
    )?;
    entries.close()?;
    entries.end_unit()
}

fn c_lines(alloc: Global, order: ByteOrder, paths: &mut Strings) -> Result<Vec<u8>, AllocError> {
    let mut lines = DebugLine::with_line_strings(alloc, order);
    lines.directory_at(paths.put("/home/u/p")?)?;
    lines.file_at(paths.put("main.c")?, 0)?;
    lines.file_at(paths.put("sq.h")?, 0)?;
    lines.set_address(0x1140)?;
    lines.set_file(0)?;
    lines.advance_line(4)?;
    lines.row()?;
    lines.advance(0x10)?;
    lines.set_file(1)?;
    // from line 5 back to line 3
    lines.raw(&[3, 0x7e])?;
    lines.set_column(12)?;
    lines.row()?;
    lines.advance(8)?;
    lines.set_file(0)?;
    lines.advance_line(5)?;
    lines.set_column(1)?;
    lines.row()?;
    lines.advance(0x28)?;
    lines.end_sequence()?;
    lines.bytes()
}

fn rust_lines(alloc: Global, order: ByteOrder, paths: &mut Strings) -> Result<Vec<u8>, AllocError> {
    let mut lines = DebugLine::with_line_strings(alloc, order);
    lines.directory_at(paths.put("/home/u/p")?)?;
    lines.directory_at(paths.put("src")?)?;
    let file = paths.put("lib.rs")?;
    lines.file_at(file, 1)?;
    lines.file_at(file, 1)?;
    lines.set_address(0x1200)?;
    lines.advance_line(9)?;
    lines.set_column(1)?;
    lines.row()?;
    lines.advance(0x60)?;
    lines.end_sequence()?;
    lines.bytes()
}
