//! The values of forms (DWARF 5 section 7.5.6).
use super::small::{entries_at, section};
use blz_checks::Checks;
use blz_entry::{Abbreviations, AttrValue, Section, StrPart, StrPlace, form_value};
use blz_model::ByteOrder;
use blz_relocations::RelocationMap;
use std::alloc::Global;
use std::test::Fail;

const NUMBERS: &[u8] = b"\x83\x01\0\0\0\0\0\0\0\0\0\0\0\0\0\0";

const BLOCKS: &[u8] = b"\x03\0\0\0\xaa\xbb\xcc";

// the number 7 as DW_FORM_data1, DW_FORM_indirect in itself, and the number -128
const INDIRECT: &[u8] = b"\x0b\x07\x16\x0b\x80\x7f";

// the value of a form at the start of a section, and the place behind it, in a unit of version 5
fn read(bytes: &Section<'_, '_>, form: u64) -> Option<(AttrValue, usize)> {
    form_value(bytes, StrPart::Line, 5, false, 8, form, 0)
}

// each form has its value at the start of some bytes, and its next place
fn check_reads(
    checks: &mut Checks,
    alloc: Global,
    bytes: &[u8],
    forms: &[(u64, AttrValue, usize)],
) {
    let relocations = RelocationMap::new(alloc);
    let bytes = section(bytes, &relocations);
    for (form, value, next) in forms {
        checks.same((*form, read(&bytes, *form)), (*form, Some((*value, *next))));
    }
}

#[test]
fn each_form_of_a_number_has_its_value_and_next_place(rt: HostRuntime) -> Result<(), Fail> {
    let mut checks = Checks::new();
    let forms = [
        (0x01, AttrValue::Addr(0x183), 8),
        (0x05, AttrValue::Const(0x183), 2),
        (0x06, AttrValue::Const(0x183), 4),
        (0x07, AttrValue::Const(0x183), 8),
        (0x0b, AttrValue::Const(0x83), 1),
        (0x0c, AttrValue::Other, 1),
        (0x0d, AttrValue::Signed(131), 2),
        (0x0f, AttrValue::Const(131), 2),
        (0x19, AttrValue::Other, 0),
        (0x1e, AttrValue::Other, 16),
        (0x20, AttrValue::Other, 8),
        (0x22, AttrValue::Other, 2),
    ];
    check_reads(&mut checks, rt.alloc(), NUMBERS, &forms);
    checks.result()
}

#[test]
fn each_form_of_a_place_has_its_value_and_next_place(rt: HostRuntime) -> Result<(), Fail> {
    let mut checks = Checks::new();
    let forms = [
        (0x0e, AttrValue::StrRef(0x183), 4),
        (0x10, AttrValue::InfoRef(0x183), 4),
        (0x11, AttrValue::UnitRef(0x83), 1),
        (0x12, AttrValue::UnitRef(0x183), 2),
        (0x13, AttrValue::UnitRef(0x183), 4),
        (0x14, AttrValue::UnitRef(0x183), 8),
        (0x15, AttrValue::UnitRef(131), 2),
        (0x17, AttrValue::SecOffset(0x183), 4),
        (0x1c, AttrValue::SupRef(0x183), 4),
        (0x1d, AttrValue::SupStr(0x183), 4),
        (0x1f, AttrValue::LineStrRef(0x183), 4),
        (0x24, AttrValue::SupRef(0x183), 8),
        (0x1f20, AttrValue::SupRef(0x183), 4),
        (0x1f21, AttrValue::SupStr(0x183), 4),
    ];
    check_reads(&mut checks, rt.alloc(), NUMBERS, &forms);
    checks.result()
}

#[test]
fn each_form_of_an_index_has_its_value_and_next_place(rt: HostRuntime) -> Result<(), Fail> {
    let mut checks = Checks::new();
    let forms = [
        (0x1a, AttrValue::StrIndex(131), 2),
        (0x1b, AttrValue::AddrIndex(131), 2),
        (0x23, AttrValue::RangeIndex(131), 2),
        (0x25, AttrValue::StrIndex(0x83), 1),
        (0x26, AttrValue::StrIndex(0x183), 2),
        (0x27, AttrValue::StrIndex(0x183), 3),
        (0x28, AttrValue::StrIndex(0x183), 4),
        (0x29, AttrValue::AddrIndex(0x83), 1),
        (0x2a, AttrValue::AddrIndex(0x183), 2),
        (0x2b, AttrValue::AddrIndex(0x183), 3),
        (0x2c, AttrValue::AddrIndex(0x183), 4),
    ];
    check_reads(&mut checks, rt.alloc(), NUMBERS, &forms);
    checks.result()
}

#[test]
fn each_form_of_a_block_or_a_text_has_its_next_place(rt: HostRuntime) -> Result<(), Fail> {
    let mut checks = Checks::new();
    let text = StrPlace {
        part: StrPart::Line,
        start: 0,
        len: 1,
    };
    let forms = [
        (0x03, AttrValue::Other, 5),
        (0x04, AttrValue::Other, 7),
        (0x08, AttrValue::Text(text), 2),
        (0x09, AttrValue::Other, 4),
        (0x0a, AttrValue::Other, 4),
        (0x18, AttrValue::Other, 4),
    ];
    check_reads(&mut checks, rt.alloc(), BLOCKS, &forms);
    checks.result()
}

#[test]
fn an_indirect_form_has_the_value_of_the_form_that_stands_there(
    rt: HostRuntime,
) -> Result<(), Fail> {
    let mut checks = Checks::new();
    let relocations = RelocationMap::new(rt.alloc());
    let bytes = section(INDIRECT, &relocations);
    checks.same(read(&bytes, 0x16), Some((AttrValue::Const(7), 2)));
    // an indirect form there, and an implicit constant
    checks.same(
        form_value(&bytes, StrPart::Line, 5, false, 8, 0x16, 2),
        None,
    );
    let implicit = section(b"\x21\x05", &relocations);
    checks.same(read(&implicit, 0x16), None);
    checks.result()
}

#[test]
fn an_implicit_constant_is_the_number_of_the_abbreviation(rt: HostRuntime) -> Result<(), Fail> {
    let mut checks = Checks::new();
    let relocations = RelocationMap::new(rt.alloc());
    // two attributes, the first with an implicit constant of -2, and the second with one of 5
    let table = b"\x01\x34\0\x3a\x21\x7e\x3b\x21\x05\0\0\0";
    let abbreviations = Abbreviations::parse(rt.alloc(), table, 0).expect(&rt, "refused");
    let mut entries = entries_at(b"\x01\x01", &relocations, &abbreviations, 0).expect(
        &rt, "refused",
    );
    entries
        .next_entry()
        .expect(&rt, "refused")
        .expect(&rt, "an entry");
    let first = *entries.pending().first().expect(&rt, "an attribute");
    checks.gives(entries.read_attribute(first), AttrValue::Signed(-2));
    let second = *entries.pending().first().expect(&rt, "another attribute");
    checks.gives(entries.read_attribute(second), AttrValue::Signed(5));
    // they took no bytes
    let next = entries
        .next_entry()
        .expect(&rt, "refused")
        .expect(&rt, "a second entry");
    checks.same(next.place, 1);
    checks.result()
}

#[test]
fn orders_and_sizes_change_what_a_form_reads(rt: HostRuntime) -> Result<(), Fail> {
    let mut checks = Checks::new();
    let relocations = RelocationMap::new(rt.alloc());
    let little = section(NUMBERS, &relocations);
    let big = Section {
        order: ByteOrder::Big,
        ..little
    };
    let line = StrPart::Line;
    checks.same(read(&big, 0x05), Some((AttrValue::Const(0x8301), 2)));
    checks.same(read(&big, 0x27), Some((AttrValue::StrIndex(0x83_0100), 3)));
    checks.same(
        form_value(&little, line, 5, true, 8, 0x0e, 0),
        Some((AttrValue::StrRef(0x183), 8)),
    );
    checks.same(
        form_value(&little, line, 2, false, 8, 0x10, 0),
        Some((AttrValue::InfoRef(0x183), 8)),
    );
    checks.same(
        form_value(&little, line, 5, false, 4, 0x01, 0),
        Some((AttrValue::Addr(0x183), 4)),
    );
    for (form, address_size) in [(0x01, 2), (0x02, 8), (0x16, 8), (0x21, 8), (0x1f01, 8)] {
        let read = form_value(&little, line, 5, false, address_size, form, 0);
        checks.same((form, read), (form, None));
    }
    checks.result()
}

#[test]
fn a_number_below_zero_is_no_constant(rt: HostRuntime) -> Result<(), Fail> {
    let mut checks = Checks::new();
    let relocations = RelocationMap::new(rt.alloc());
    let bytes = section(INDIRECT, &relocations);
    let negative = form_value(&bytes, StrPart::Line, 5, false, 8, 0x0d, 4);
    checks.same(negative, Some((AttrValue::Signed(-128), 6)));
    checks.same(AttrValue::Signed(-128).udata(), None);
    checks.same(AttrValue::Signed(5).udata(), Some(5));
    checks.result()
}

#[test]
fn addresses_are_moved_and_constants_are_not(rt: HostRuntime) -> Result<(), Fail> {
    let mut checks = Checks::new();
    let mut relocations = RelocationMap::new(rt.alloc());
    relocations.insert(8, 0xABCD, false).expect(&rt, "refused");
    let moved = section(NUMBERS, &relocations);
    let line = StrPart::Line;
    checks.same(
        form_value(&moved, line, 5, false, 4, 0x01, 8),
        Some((AttrValue::Addr(0xABCD), 12)),
    );
    checks.same(
        form_value(&moved, line, 5, false, 4, 0x06, 8),
        Some((AttrValue::Const(0), 12)),
    );
    checks.result()
}
