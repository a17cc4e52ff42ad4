//! Numbers that a relocation moves.
use blz_checks::Checks;
use blz_elf::{ElfParser, RelocationMap, SectionRelocations};
use blz_error::Result;
use blz_images::{Image, Section};
use std::alloc::{AllocError, Global};
use std::collections::BTreeMap;
use std::test::Fail;

#[test]
fn relocates_by_the_last_insert(rt: HostRuntime) -> std::result::Result<(), Fail> {
    let mut checks = Checks::new();
    let mut map = RelocationMap::new(rt.alloc());
    map.insert(0x100, 7, true).expect(&rt, "refused");
    map.insert(0x100, 0xabcd, false).expect(&rt, "refused");
    map.insert(0, 1, true).expect(&rt, "refused");
    checks.same(map.relocate(0x100, 999), 0xabcd);
    checks.same(map.relocate(0x200, 999), 999);
    checks.same(map.relocate(0, u64::MAX), 0);
    checks.result()
}

#[test]
fn a_relocation_is_put_where_there_is_none(rt: HostRuntime) -> std::result::Result<(), Fail> {
    let mut checks = Checks::new();
    let mut map = RelocationMap::new(rt.alloc());
    map.insert(0x100, 7, true).expect(&rt, "refused");
    map.insert_absent(0x100, 0xabcd, false)
        .expect(&rt, "refused");
    map.insert_absent(0x200, 0xabcd, false)
        .expect(&rt, "refused");
    checks.same(map.relocate(0x100, 1), 8);
    checks.same(map.relocate(0x200, 1), 0xabcd);
    checks.result()
}

#[test]
fn a_section_has_its_own_relocations(rt: HostRuntime) -> std::result::Result<(), Fail> {
    let mut checks = Checks::new();
    let alloc = rt.alloc();
    let mut map = RelocationMap::new(alloc);
    map.insert(8, 6, false).expect(&rt, "refused");
    let mut maps = BTreeMap::new(alloc);
    let before: std::result::Result<_, _> = maps.insert(3, map);
    checks.holds(before.expect(&rt, "refused").is_none());
    let mut sections = SectionRelocations::new(alloc, maps);
    checks.same(relocated(&sections, 3, 8), 6);
    checks.same(relocated(&sections, 4, 8), 999);
    sections
        .put(3, RelocationMap::new(alloc))
        .expect(&rt, "refused");
    checks.same(relocated(&sections, 3, 8), 999);
    checks.same(relocated(&SectionRelocations::empty(alloc), 3, 8), 999);
    checks.result()
}

// what stands for 999 at a place of a section
fn relocated(relocations: &SectionRelocations, section: usize, at: u64) -> u64 {
    relocations.get(section).relocate(at, 999)
}

// the same, by the relocations that a parser keeps
fn relocated_by_kept(
    alloc: Global,
    parser: &mut ElfParser<'_>,
    section: usize,
    at: u64,
) -> Result<u64> {
    match parser.section_relocations(alloc) {
        Ok(relocations) => Ok(relocated(relocations, section, at)),
        Err(error) => Err(error),
    }
}

// a relocation of `.text` by the symbol A
fn moved_to_a_symbol(alloc: Global) -> std::result::Result<Vec<u8>, AllocError> {
    // r_offset 8, the symbol with the index 1 in r_info, r_addend 5
    let entry = b"\x08\0\0\0\0\0\0\0\x01\0\0\0\x01\0\0\0\x05\0\0\0\0\0\0\0";
    let relocations = Section::new(".rela.text", 4, entry).linked(2, 4);
    Image::elf64(alloc)
        .file_type(1)
        .symbol("A", 0x10, 4)?
        .section(".text", 1, b"sixteen bytes ..")?
        .add_section(relocations)?
        .bytes()
}

#[test]
fn a_relocation_moves_a_place_to_its_symbol(rt: HostRuntime) -> std::result::Result<(), Fail> {
    let mut checks = Checks::new();
    let alloc = rt.alloc();
    let image = moved_to_a_symbol(alloc).expect(&rt, "refused");
    let mut parser = ElfParser::from_mem(alloc, &image, None);
    let read = parser.read_relocations(alloc).expect(&rt, "refused");
    checks.same(relocated(&read, 4, 8), 0x15);
    checks.same(relocated(&read, 4, 9), 999);
    checks.same(relocated(&read, 3, 8), 999);
    checks.gives(relocated_by_kept(alloc, &mut parser, 4, 8), 0x15);
    checks.result()
}

// two tables of relocations of `.text`, and one of another section
fn of_two_tables(alloc: Global) -> std::result::Result<Vec<u8>, AllocError> {
    // r_offset 8 and r_offset 4, without a symbol, r_addend 5 and 7
    let first =
        b"\x08\0\0\0\0\0\0\0\x01\0\0\0\0\0\0\0\x05\0\0\0\0\0\0\0\x04\0\0\0\0\0\0\0\x01\0\0\0\0\0\0\0\x07\0\0\0\0\0\0\0";
    // r_offset 8, r_addend 6
    let last = b"\x08\0\0\0\0\0\0\0\x01\0\0\0\0\0\0\0\x06\0\0\0\0\0\0\0";
    Image::elf64(alloc)
        .file_type(1)
        .symbol("A", 0x10, 4)?
        .section(".text", 1, b"sixteen bytes ..")?
        .add_section(Section::new(".rela.text", 4, first).linked(2, 4))?
        .add_section(Section::new(".rela.again", 4, last).linked(2, 4))?
        .add_section(Section::new(".rela.other", 4, last).linked(2, 3))?
        .bytes()
}

#[test]
fn the_last_table_of_a_section_decides(rt: HostRuntime) -> std::result::Result<(), Fail> {
    let mut checks = Checks::new();
    let alloc = rt.alloc();
    let image = of_two_tables(alloc).expect(&rt, "refused");
    let mut parser = ElfParser::from_mem(alloc, &image, None);
    parser.check_relocations().expect(&rt, "refused");
    let read = parser
        .read_relocations_for(alloc, &[None, Some(4)])
        .expect(&rt, "refused");
    checks.same(relocated(&read, 4, 8), 6);
    checks.same(relocated(&read, 4, 4), 7);
    checks.same(relocated(&read, 3, 8), 999);
    checks.result()
}
