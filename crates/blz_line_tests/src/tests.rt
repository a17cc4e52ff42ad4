//! Small line tables, with the rows that the standard or another reader gives for them.
use blz_bytes::{AsTheyStand, ByteOrder};
use blz_checks::Checks;
use blz_entry::{
    RangeAttributes, Section, Sections, StrPart, StrPlace, Texts, UnitHeader, UnitKind, UnitRoot,
};
use blz_error::{ErrorKind, IntoError, Result};
use blz_line::{LineHeader, LineRow, Lines};
use blz_relocations::RelocationMap;
use std::alloc::Global;
use std::test::Fail;

/// A header of version 4 before a program of 19 bytes: minimum length 1, one operation, lines from -5 in a range of 14,
/// special opcodes from 13, no directory, and the file `a.c`.
const HEADER: &[u8] =
    b"\x34\0\0\0\x04\0\x1b\0\0\0\x01\x01\x01\xfb\x0e\x0d\0\x01\x01\x01\x01\0\0\0\x01\0\0\x01\0a.c\0\0\0\0\0";

const BIG_HEADER: &[u8] =
    b"\0\0\0\x34\0\x04\0\0\0\x1b\x01\x01\x01\xfb\x0e\x0d\0\x01\x01\x01\x01\0\0\0\x01\0\0\x01\0a.c\0\0\0\0\0";

/// Address 0x1000, special opcode 0x4b, const_add_pc, copy, advance_pc 3, end.
const PROGRAM: &[u8] = b"\0\x09\x02\0\x10\0\0\0\0\0\0\x4b\x08\x01\x02\x03\0\x01\x01";

const BIG_PROGRAM: &[u8] = b"\0\x09\x02\0\0\0\0\0\0\x10\0\x4b\x08\x01\x02\x03\0\x01\x01";

/// Address 0x1000, file 9, copy, advance_pc 8, end.
const OTHER_FILE: &[u8] = b"\0\x09\x02\0\x10\0\0\0\0\0\0\x04\x09\x01\x02\x08\0\x01\x01";

/// What clang 14 writes in version 2 and in version 5 for a function of seven lines.
const VERSION_2: &[u8] =
    b"\x40\0\0\0\x02\0\x1a\0\0\0\x01\x01\xfb\x0e\x0d\0\x01\x01\x01\x01\0\0\0\x01\0\0\x01\0a.c\0\0\0\0\0\
    \0\x09\x02\0\x10\0\0\0\0\0\0\x13\x05\x0f\x0a\x13\x05\x0b\x3d\x05\x09\x06\x66\x05\x05\x06\x31\x02\x01\0\x01\x01";

const VERSION_5: &[u8] =
    b"\x61\0\0\0\x05\0\x08\0\x37\0\0\0\x01\x01\x01\xfb\x0e\x0d\0\x01\x01\x01\x01\0\0\0\x01\0\0\x01\
    \x01\x01\x1f\x01\0\0\0\0\x03\x01\x1f\x02\x0f\x05\x1e\x01\x05\0\0\0\0\x4e\xd2\x70\x02\xc0\x64\x58\x74\xfe\x99\xbb\x7f\xed\x97\xeb\xbb\x04\0\
    \0\x09\x02\0\x10\0\0\0\0\0\0\x13\x05\x0f\x0a\x13\x05\x0b\x3d\x05\x09\x06\x66\x05\x05\x06\x31\x02\x01\0\x01\x01";

const LINE_STRINGS: &[u8] = b"/src\0a.c\0";

/// A table of version 5 with as many files as a number can say, none of which has a byte.
const ENDLESS: &[u8] =
    b"\x29\0\0\0\x05\0\x08\0\x21\0\0\0\x01\x01\x01\xfb\x0e\x0d\0\x01\x01\x01\x01\0\0\0\x01\0\0\x01\
    \0\0\x01\x01\x19\xff\xff\xff\xff\xff\xff\xff\xff\xff\x01";

fn section<'s, 'b>(
    bytes: &'b [u8],
    relocations: &'s RelocationMap,
    order: ByteOrder,
) -> Section<'s, 'b> {
    Section {
        bytes,
        relocations,
        order,
    }
}

/// Sections of which all but the lines and their strings are empty.
fn sections<'s, 'b>(
    line: &'b [u8],
    relocations: &'s RelocationMap,
    order: ByteOrder,
) -> Sections<'s, 'b> {
    let empty = section(b"", relocations, order);
    Sections {
        abbrev: empty,
        addr: empty,
        aranges: empty,
        info: empty,
        line: section(line, relocations, order),
        line_str: section(LINE_STRINGS, relocations, order),
        ranges: empty,
        rnglists: empty,
        strings: empty,
        str_offsets: empty,
        sup_strings: None,
        shift: 0,
        split: false,
        sup: false,
    }
}

fn texts<'b>(line: &'b [u8]) -> Texts<'b> {
    Texts {
        info: b"",
        line,
        strings: b"",
        line_str: LINE_STRINGS,
        sup_strings: b"",
        pack_info: b"",
        pack_strings: b"",
        sup_info: b"",
        sup_line_str: b"",
    }
}

fn unit() -> UnitHeader {
    UnitHeader {
        start: 0,
        entries: 0,
        end: 0,
        version: 4,
        wide: false,
        address_size: 8,
        kind: UnitKind::Compile,
        abbrev: 0,
        id: 0,
    }
}

/// A unit in `/src` whose line program begins at 0.
fn root() -> UnitRoot {
    UnitRoot {
        name: None,
        comp_dir: Some(StrPlace {
            part: StrPart::LineStr,
            start: 0,
            len: 4,
        }),
        line: Some(0),
        low_pc: 0,
        language: None,
        str_offsets_base: 0,
        addr_base: 0,
        rnglists_base: 0,
        ranges: RangeAttributes {
            low_pc: None,
            high_pc: None,
            size: None,
            ranges_offset: None,
        },
    }
}

fn parsed(alloc: Global, line: &[u8], order: ByteOrder) -> Result<Option<Lines>> {
    let relocations = RelocationMap::new(alloc);
    Lines::parse(
        alloc,
        &mut AsTheyStand,
        &sections(line, &relocations, order),
        &unit(),
        &root(),
    )
}

fn lines(alloc: Global, line: &[u8], order: ByteOrder) -> Result<Lines> {
    let lines = parsed(alloc, line, order)?;
    lines.ok_or_invalid_data(|| "no lines")
}

/// The line and the column of an address.
fn place(lines: &Lines, line: &[u8], addr: u64) -> Result<Option<(Option<u32>, Option<u32>)>> {
    match lines.find_location(&texts(line), addr)? {
        Some(location) => Ok(Some((location.line, location.column))),
        None => Ok(None),
    }
}

fn joined(alloc: Global, header: &[u8], program: &[u8]) -> Result<Vec<u8>> {
    let mut table = Vec::new(alloc);
    table.extend_from_slice(header)?;
    table.extend_from_slice(program)?;
    Ok(table)
}

#[test]
fn opcodes_make_rows_in_both_byte_orders(rt: HostRuntime) -> std::result::Result<(), Fail> {
    let mut checks = Checks::new();
    let alloc = rt.alloc();
    for (header, program, order) in [
        (HEADER, PROGRAM, ByteOrder::Little),
        (BIG_HEADER, BIG_PROGRAM, ByteOrder::Big),
    ] {
        let table = joined(alloc, header, program).expect(&rt, "refused");
        let lines = lines(alloc, &table, order).expect(&rt, "refused");
        checks.same(lines.sequences().len(), 1);
        let sequence = lines.sequences().first().expect(&rt, "no sequence");
        checks.same((sequence.start, sequence.end), (0x1004, 0x1018));
        let rows = sequence.rows();
        checks.same(rows.len(), 2);
        for (row, address) in rows.iter().zip(&[0x1004u64, 0x1015]) {
            checks.same(row.address, *address);
            checks.same((row.line, row.column), (2, 0));
        }
        checks.gives(place(&lines, &table, 0x1010), Some((Some(2), Some(0))));
        checks.gives(place(&lines, &table, 0x1018), None);
    }
    checks.result()
}

#[test]
fn a_row_of_a_file_outside_the_table_is_refused(rt: HostRuntime) -> std::result::Result<(), Fail> {
    let mut checks = Checks::new();
    let alloc = rt.alloc();
    let table = joined(alloc, HEADER, OTHER_FILE).expect(&rt, "refused");
    let lines = lines(alloc, &table, ByteOrder::Little).expect(&rt, "refused");
    match place(&lines, &table, 0x1000) {
        Ok(_) => checks.holds(false),
        Err(e) => checks.same(e.kind(), ErrorKind::InvalidDwarf),
    }
    checks.gives(place(&lines, &table, 0x1008), None);
    checks.result()
}

#[test]
fn the_rows_of_a_compiler(rt: HostRuntime) -> std::result::Result<(), Fail> {
    let mut checks = Checks::new();
    let alloc = rt.alloc();
    for table in [VERSION_2, VERSION_5] {
        let lines = lines(alloc, table, ByteOrder::Little).expect(&rt, "refused");
        for (addr, line, column) in [
            (0x1000u64, 3u32, 15u32),
            (0x1008, 4, 11),
            (0x1009, 4, 9),
            (0x100b, 7, 5),
        ] {
            checks.gives(
                place(&lines, table, addr),
                Some((Some(line), Some(column))),
            ) /* MSG ['"at {addr}"'] */;
        }
        checks.gives(place(&lines, table, 0x100c), None);
    }
    checks.result()
}

#[test]
fn the_file_of_a_compiler(rt: HostRuntime) -> std::result::Result<(), Fail> {
    let mut checks = Checks::new();
    let alloc = rt.alloc();
    for table in [VERSION_2, VERSION_5] {
        let lines = lines(alloc, table, ByteOrder::Little).expect(&rt, "refused");
        let texts = texts(table);
        let location = lines
            .find_location(&texts, 0x1000)
            .expect(&rt, "refused")
            .expect(&rt, "no location");
        let mut dir = Vec::new(alloc);
        location.dir.write_to(&mut dir).expect(&rt, "refused");
        checks.same(dir.as_slice(), b"/src".as_slice());
        checks.same(location.file, b"a.c".as_slice());
    }
    checks.result()
}

#[test]
fn a_count_that_no_byte_backs(rt: HostRuntime) -> std::result::Result<(), Fail> {
    let mut checks = Checks::new();
    let alloc = rt.alloc();
    let relocations = RelocationMap::new(alloc);
    let sections = sections(ENDLESS, &relocations, ByteOrder::Little);
    let header = LineHeader::parse(alloc, &sections, 0, 8).expect(&rt, "refused");
    checks.same(header.version, 5);
    match parsed(alloc, ENDLESS, ByteOrder::Little) {
        Ok(_) => checks.holds(false),
        Err(e) => checks.same(e.kind(), ErrorKind::InvalidDwarf),
    }
    checks.result()
}

#[test]
fn a_row_takes_24_bytes() -> std::result::Result<(), Fail> {
    let mut checks = Checks::new();
    checks.same(size_of::<LineRow>(), 24);
    checks.result()
}
