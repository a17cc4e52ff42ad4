//! Places in images, as the formats give them.
use blz_checks::Checks;
use blz_images::dwarf::codes::{DW_AT_NAME, DW_TAG_COMPILE_UNIT, DW_TAG_SKELETON_UNIT};
use blz_images::{
    Attribute, ByteOrder, Class, DebugInfo, Image, Section, Symbol, UnitIndex, UnitKind, Writer,
    nested_functions, no_sections, patched, prefix, range_pairs, realistic_walk,
    with_nested_functions,
};
use std::test::Fail;

#[test]
fn lays_two_functions_out(rt: HostRuntime) -> Result<(), Fail> {
    let mut checks = Checks::new();
    let image = nested_functions(rt.alloc()).expect(&rt, "refused");
    checks.same(image.len(), 424);
    let bytes = image.as_slice();
    checks.same(prefix(bytes, 7), b"\x7fELF\x02\x01\x01".as_slice());
    // shoff, and shnum and shstrndx
    checks.same(
        bytes.get(40..48).unwrap_or(&[]),
        [64, 0, 0, 0, 0, 0, 0, 0].as_slice(),
    );
    checks.same(bytes.get(60..64).unwrap_or(&[]), [4, 0, 1, 0].as_slice());
    checks.same(
        bytes.get(320..347).unwrap_or(&[]),
        b"\0.shstrtab\0.symtab\0.strtab\0".as_slice(),
    );
    // the third symbol: B, a function of the first section at 10 with size 10
    let b = [
        3, 0, 0, 0, 0x12, 0, 1, 0, 10, 0, 0, 0, 0, 0, 0, 0, 10, 0, 0, 0, 0, 0, 0, 0,
    ];
    checks.same(bytes.get(395..419).unwrap_or(&[]), b.as_slice());
    checks.same(bytes.get(419..).unwrap_or(&[]), b"\0A\0B\0".as_slice());
    checks.result()
}

#[test]
fn writes_the_other_class_and_order(rt: HostRuntime) -> Result<(), Fail> {
    let mut checks = Checks::new();
    let image = with_nested_functions(Image::elf32(rt.alloc()).big_endian()).expect(&rt, "refused");
    let bytes = image.as_slice();
    // a header of 52, four section headers of 40, names of 27, three symbols of 16, names of 5 bytes
    checks.same(bytes.len(), 292);
    checks.same(bytes.get(4..6).unwrap_or(&[]), [1, 2].as_slice());
    checks.same(bytes.get(32..36).unwrap_or(&[]), [0, 0, 0, 52].as_slice());
    let b = [0, 0, 0, 3, 0, 0, 0, 10, 0, 0, 0, 10, 0x12, 0, 0, 1];
    checks.same(bytes.get(271..287).unwrap_or(&[]), b.as_slice());
    checks.result()
}

#[test]
fn writes_segments_and_sections(rt: HostRuntime) -> Result<(), Fail> {
    let mut checks = Checks::new();
    let alloc = rt.alloc();
    let segment = Image::elf64(alloc)
        .segment(0x1000, 0x200, 0x100)
        .expect(&rt, "refused")
        .bytes()
        .expect(&rt, "refused");
    checks.same(segment.len(), 120);
    let bytes = segment.as_slice();
    checks.same(
        bytes.get(72..84).unwrap_or(&[]),
        [0, 2, 0, 0, 0, 0, 0, 0, 0, 16, 0, 0].as_slice(),
    );

    let image = Image::elf64(alloc)
        .file_type(1)
        .add_dynamic_symbol(Symbol::function("f", 1, 2).variable().in_section(9))
        .expect(&rt, "refused")
        .add_section(
            Section::new(".text", 8, b"abc")
                .with_flags(6)
                .at_address(7)
                .linked(2, 1),
        )
        .expect(&rt, "refused")
        .section(".end", 1, b"")
        .expect(&rt, "refused")
        .bytes()
        .expect(&rt, "refused");
    let bytes = image.as_slice();
    checks.same(bytes.get(16..18).unwrap_or(&[]), [1, 0].as_slice());
    checks.same(bytes.get(60..62).unwrap_or(&[]), [6, 0].as_slice());
    checks.same(image.len(), 540);
    checks.result()
}

#[test]
fn changes_a_byte(rt: HostRuntime) -> Result<(), Fail> {
    let mut checks = Checks::new();
    let header = no_sections(rt.alloc()).expect(&rt, "refused");
    checks.same(header.len(), 64);
    let other = patched(header, 4, 3);
    checks.same(other.get(4), Some(&3));
    let same = patched(other, 64, 3);
    checks.same(prefix(same.as_slice(), 99).len(), 64);
    checks.result()
}

#[test]
fn writes_numbers(rt: HostRuntime) -> Result<(), Fail> {
    let mut checks = Checks::new();
    let mut out = Writer::new(rt.alloc(), Class::Elf32, ByteOrder::Big);
    out.uleb(624485).expect(&rt, "refused");
    out.uleb(0).expect(&rt, "refused");
    out.u16(258).expect(&rt, "refused");
    out.word(0x1_0000_0203).expect(&rt, "refused");
    out.text("a").expect(&rt, "refused");
    checks.same(
        out.bytes(),
        [0xe5, 0x8e, 0x26, 0, 1, 2, 0, 0, 2, 3, 97, 0].as_slice(),
    );
    checks.result()
}

#[test]
fn writes_a_unit_of_one_entry(rt: HostRuntime) -> Result<(), Fail> {
    let mut checks = Checks::new();
    let alloc = rt.alloc();
    let mut entries = DebugInfo::new(alloc, ByteOrder::Little, 4);
    entries
        .entry(DW_TAG_COMPILE_UNIT, &[Attribute::text(DW_AT_NAME, "a")])
        .expect(&rt, "refused");
    entries.end_unit().expect(&rt, "refused");
    // length, version, offset of the table, size of an address; code, name
    let unit = [10, 0, 0, 0, 4, 0, 0, 0, 0, 0, 8, 1, 97, 0];
    checks.same(entries.info(), unit.as_slice());
    // code, tag, no children; attribute and form, their end; the end of the table
    checks.same(
        entries.abbreviations().expect(&rt, "refused").as_slice(),
        [1, 0x11, 0, 3, 8, 0, 0, 0].as_slice(),
    );
    checks.result()
}

#[test]
fn writes_the_number_of_a_skeleton(rt: HostRuntime) -> Result<(), Fail> {
    let mut checks = Checks::new();
    let mut entries = DebugInfo::new(rt.alloc(), ByteOrder::Little, 5);
    entries.of_kind(UnitKind::Skeleton(7));
    let place = entries.place();
    entries
        .entry(DW_TAG_SKELETON_UNIT, &[])
        .expect(&rt, "refused");
    entries.end_unit().expect(&rt, "refused");
    checks.same(place, 20);
    // length, version, kind, size of an address, offset of the table, number; code
    let unit = [
        17, 0, 0, 0, 5, 0, 4, 8, 0, 0, 0, 0, 7, 0, 0, 0, 0, 0, 0, 0, 1,
    ];
    checks.same(entries.info(), unit.as_slice());
    checks.result()
}

#[test]
fn writes_an_index_of_units(rt: HostRuntime) -> Result<(), Fail> {
    let mut checks = Checks::new();
    let mut index = UnitIndex::new(rt.alloc(), ByteOrder::Big);
    index.slot(7, 1).expect(&rt, "refused");
    index.row((2, 3), (4, 5)).expect(&rt, "refused");
    // version; columns, rows and slots; the slot's unit and row; the columns; offsets, and sizes
    let bytes = [
        0, 5, 0, 0, 0, 0, 0, 2, 0, 0, 0, 1, 0, 0, 0, 1, 0, 0, 0, 0, 0, 0, 0, 7, 0, 0, 0, 1, 0, 0,
        0, 1, 0, 0, 0, 3, 0, 0, 0, 2, 0, 0, 0, 4, 0, 0, 0, 3, 0, 0, 0, 5,
    ];
    checks.same(
        index.bytes().expect(&rt, "refused").as_slice(),
        bytes.as_slice(),
    );
    checks.result()
}

#[test]
fn writes_pairs_of_a_range_list(rt: HostRuntime) -> Result<(), Fail> {
    let mut checks = Checks::new();
    let list = range_pairs(rt.alloc(), ByteOrder::Big, &[(1, 2)]).expect(&rt, "refused");
    checks.same(list.len(), 32);
    let pair = [0, 0, 0, 0, 0, 0, 0, 1, 0, 0, 0, 0, 0, 0, 0, 2];
    checks.same(prefix(&list, 16), pair.as_slice());
    checks.result()
}

#[test]
fn writes_a_realistic_walk(rt: HostRuntime) -> Result<(), Fail> {
    let mut checks = Checks::new();
    let little = realistic_walk(rt.alloc(), ByteOrder::Little).expect(&rt, "refused");
    let big = realistic_walk(rt.alloc(), ByteOrder::Big).expect(&rt, "refused");
    checks.same(little.len(), big.len());
    checks.result()
}
