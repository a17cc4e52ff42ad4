//! Inlined calls, and the places of a function and of its calls.
use super::built::{Built, Step, image_of, lines_of};
use super::shown::{Frame, frames_are, frames_refusal};
use blz_checks::Checks;
use blz_error::ErrorKind;
use blz_images::dwarf::codes::*;
use blz_images::{Attribute, ByteOrder};
use std::alloc::Global;
use std::test::Fail;

/// A file number outside the table.
const NO_SUCH_FILE: u8 = 9;

/// A place from which a call is made: the number of a file, 0 for none, and a line.
type CallPlace = (u8, u8);

// one file, and a row of line 3 at 0x10: DW_LNS_set_file, DW_LNS_advance_line, DW_LNS_copy, DW_LNS_advance_pc and
// DW_LNE_end_sequence
fn lines(alloc: Global, order: ByteOrder, row_file: u8) -> Built {
    let opcodes = [4, row_file, 3, 2, 1, 2, 0x10, 0, 1, 1];
    lines_of(alloc, (order, 4), &[], &["a.c"], 0x10, &opcodes)
}

// the addresses [0x10, 0x20)
fn low<'a>() -> Attribute<'a> {
    Attribute::address(DW_AT_LOW_PC, 0x10)
}

fn high<'a>() -> Attribute<'a> {
    Attribute::data4(DW_AT_HIGH_PC, 0x10)
}

// a unit with lines
fn unit<'a>() -> [Attribute<'a>; 3] {
    [low(), high(), Attribute::section_offset(DW_AT_STMT_LIST, 0)]
}

fn function<'a>() -> [Attribute<'a>; 3] {
    [Attribute::text(DW_AT_NAME, "function"), low(), high()]
}

fn call<'a>(name: &'a str, from: CallPlace) -> [Attribute<'a>; 5] {
    [
        Attribute::text(DW_AT_NAME, name),
        low(),
        high(),
        Attribute::data1(DW_AT_CALL_FILE, from.0),
        Attribute::data1(DW_AT_CALL_LINE, from.1),
    ]
}

// `function` with a call of `outer` and in it one of `inner`
fn two_calls(
    alloc: Global,
    order: ByteOrder,
    row_file: u8,
    outer: CallPlace,
    inner: CallPlace,
) -> Built {
    let lines = lines(alloc, order, row_file)?;
    let steps = [
        Step::Open(DW_TAG_COMPILE_UNIT, &unit()),
        Step::Open(DW_TAG_SUBPROGRAM, &function()),
        Step::Open(DW_TAG_INLINED_SUBROUTINE, &call("outer", outer)),
        Step::Open(DW_TAG_INLINED_SUBROUTINE, &call("inner", inner)),
        Step::Close,
        Step::Close,
        Step::Close,
        Step::EndUnit,
    ];
    image_of(alloc, (order, 4), &steps, &[(".debug_line", &lines)])
}

#[test]
fn each_call_stands_where_the_next_was_made(rt: HostRuntime) -> Result<(), Fail> {
    let mut checks = Checks::new();
    let alloc = rt.alloc();
    let at_rows = [
        Frame::at("function", 11),
        Frame::at("outer", 12),
        Frame::at("inner", 3),
    ];
    // a function keeps the row where its call has no file
    let without_file = [
        Frame::at("function", 3),
        Frame::at("outer", 12),
        Frame::nowhere("inner"),
    ];
    for order in [ByteOrder::Little, ByteOrder::Big] {
        let image = two_calls(alloc, order, 1, (1, 11), (1, 12));
        frames_are(&mut checks, alloc, image, 0x14, &at_rows);
        let image = two_calls(alloc, order, 1, (0, 11), (1, 12));
        frames_are(&mut checks, alloc, image, 0x14, &without_file);
    }
    checks.result()
}

#[test]
fn a_file_outside_the_table_is_refused_of_a_row_alone(rt: HostRuntime) -> Result<(), Fail> {
    let mut checks = Checks::new();
    let alloc = rt.alloc();
    let call_outside = [
        Frame::at("function", 11),
        Frame::nowhere("outer"),
        Frame::at("inner", 3),
    ];
    let image = two_calls(alloc, ByteOrder::Little, 1, (1, 11), (NO_SUCH_FILE, 12));
    frames_are(&mut checks, alloc, image, 0x14, &call_outside);
    let image = two_calls(alloc, ByteOrder::Little, NO_SUCH_FILE, (1, 11), (1, 12));
    checks.same(
        frames_refusal(alloc, image, 0x14),
        Some(ErrorKind::InvalidDwarf),
    );
    checks.result()
}

// a call that names the first list of ranges
fn listed_call<'a>(name: &'a str) -> [Attribute<'a>; 2] {
    [
        Attribute::text(DW_AT_NAME, name),
        Attribute::section_offset(DW_AT_RANGES, 0),
    ]
}

// `function` with calls of `near`, in which `nearer` is called, and of `far`; the three name one list
fn calls_of_one_list(alloc: Global) -> Built {
    // [0x11, 0x14) and [0x18, 0x1c), as distances from the begin of the unit
    let lists = [4, 1, 4, 4, 8, 12, 0];
    let lines = lines(alloc, ByteOrder::Little, 1)?;
    let steps = [
        Step::Open(DW_TAG_COMPILE_UNIT, &unit()),
        Step::Open(DW_TAG_SUBPROGRAM, &function()),
        Step::Open(DW_TAG_INLINED_SUBROUTINE, &listed_call("near")),
        Step::Open(DW_TAG_INLINED_SUBROUTINE, &listed_call("nearer")),
        Step::Close,
        Step::Close,
        Step::Open(DW_TAG_INLINED_SUBROUTINE, &listed_call("far")),
        Step::Close,
        Step::Close,
        Step::EndUnit,
    ];
    let sections: [(&str, &[u8]); 2] = [(".debug_line", &lines), (".debug_rnglists", &lists)];
    image_of(alloc, (ByteOrder::Little, 5), &steps, &sections)
}

#[test]
fn of_one_list_the_earlier_call_of_each_depth_is_found(rt: HostRuntime) -> Result<(), Fail> {
    let mut checks = Checks::new();
    let alloc = rt.alloc();
    let inside = [
        Frame::at("function", 3),
        Frame::nowhere("near"),
        Frame::nowhere("nearer"),
    ];
    for addr in [0x12, 0x1a] {
        frames_are(&mut checks, alloc, calls_of_one_list(alloc), addr, &inside);
    }
    let between = [Frame::at("function", 3)];
    frames_are(&mut checks, alloc, calls_of_one_list(alloc), 0x15, &between);
    checks.result()
}
