//! The records of an image: section headers and segments.
use blz_checks::Checks;
use blz_elf::{ElfN_Syms, ElfNSlice, ElfParser};
use blz_error::Result;
use blz_images::{Image, with_nested_functions};
use std::test::Fail;

#[test]
fn lists_the_section_headers_of_an_image(rt: HostRuntime) -> std::result::Result<(), Fail> {
    let mut checks = Checks::new();
    let alloc = rt.alloc();
    // `.shstrtab` of 27 bytes, `.symtab` of three records of 16, `.strtab` of 5
    let image = with_nested_functions(Image::elf32(alloc).big_endian()).expect(&rt, "refused");
    let headers = ElfParser::from_mem(alloc, &image, None)
        .section_headers()
        .expect(&rt, "refused");
    assert!(rt; headers.len() == 4);
    checks.holds(!headers.is_empty());
    checks.same(headers.get(1).map_or(0, |header| header.size()), 27);
    checks.holds(headers.get(4).is_none());
    let mut last = headers.iter(3);
    checks.same(last.len(), 1);
    checks.same(last.next().map_or(0, |header| header.size()), 5);
    checks.holds(last.next().is_none());
    let copies = headers.to_owned(alloc).expect(&rt, "refused");
    checks.same(copies.len(), 4);
    checks.same(copies.get(2).map_or(0, |header| header.size()), 48);
    checks.same(copies.as_slice().len(), 4);
    let none: ElfN_Syms<'_> = ElfNSlice::empty(true);
    checks.holds(none.is_empty());
    checks.result()
}

#[test]
fn leads_from_addresses_to_the_file_and_back(rt: HostRuntime) -> std::result::Result<(), Fail> {
    let mut checks = Checks::new();
    let alloc = rt.alloc();
    let image = Image::elf64(alloc)
        .segment(0x1000, 0x200, 0x100)
        .expect(&rt, "refused")
        .bytes()
        .expect(&rt, "refused");
    let mut parser = ElfParser::from_mem(alloc, &image, None);
    checks.gives(parser.find_file_offset(0x1010, 4), Some(0x210));
    checks.gives(parser.find_file_offset(0x1100, 0), Some(0x300));
    checks.holds(
        parser
            .find_file_offset(0x1100, 1)
            .expect(&rt, "refused")
            .is_none(),
    );
    checks.gives(parser.file_offset_to_virt_offset(0x210), Some(0x1010));
    checks.result()
}
