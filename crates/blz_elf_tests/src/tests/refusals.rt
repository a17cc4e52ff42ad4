//! Images that are refused, and those that only look so.
use super::found::{found, kind_of};
use blz_checks::Checks;
use blz_elf::ElfParser;
use blz_error::{ErrorKind, Result};
use blz_images::{Image, Section, nested_functions, patched};
use std::test::Fail;

#[test]
fn refuses_other_identifications(rt: HostRuntime) -> std::result::Result<(), Fail> {
    let mut checks = Checks::new();
    let alloc = rt.alloc();
    for (place, byte, kind) in [
        (3usize, 0x47u8, ErrorKind::InvalidData),
        (4, 3, ErrorKind::Unsupported),
        (5, 0, ErrorKind::Unsupported),
        (5, 3, ErrorKind::Unsupported),
    ] {
        let mut image = Image::elf64(alloc)
            .symbol("A", 0, 100)
            .expect(&rt, "refused")
            .bytes()
            .expect(&rt, "refused");
        if place < image.len() {
            image[place] = byte;
        }
        checks.same(
            (place, byte, kind_of(alloc, &image)),
            (place, byte, Some(kind)),
        );
    }
    let packed = Image::elf64(alloc)
        .section(".gnu_debugdata", 1, b"x")
        .expect(&rt, "refused")
        .bytes()
        .expect(&rt, "refused");
    checks.same(kind_of(alloc, &packed), Some(ErrorKind::Unsupported));
    checks.result()
}

#[test]
fn compressed_sections_are_not_unpacked(rt: HostRuntime) -> std::result::Result<(), Fail> {
    let mut checks = Checks::new();
    let alloc = rt.alloc();
    let section = Section::new(".debug_info", 1, &[0; 24]).with_flags(0x800);
    let image = Image::elf64(alloc)
        .add_section(section)
        .expect(&rt, "refused")
        .bytes()
        .expect(&rt, "refused");
    let mut parser = ElfParser::from_mem(alloc, &image, None);
    checks.same(
        parser
            .data_named(".debug_abbrev")
            .expect(&rt, "refused")
            .len(),
        0,
    );
    let refused = match parser.data_named(".debug_info") {
        Ok(_) => None,
        Err(e) => Some(e.kind()),
    };
    checks.same(refused, Some(ErrorKind::Unsupported));
    checks.result()
}

#[test]
fn the_first_section_header_holds_what_the_header_has_no_room_for(
    rt: HostRuntime,
) -> std::result::Result<(), Fail> {
    let mut checks = Checks::new();
    let alloc = rt.alloc();
    // e_shnum is 0, and sh_size of the first section header is 4
    let counted = patched(
        patched(nested_functions(alloc).expect(&rt, "refused"), 60, 0),
        96,
        4,
    );
    let answer = found(alloc, &counted, 15).expect(&rt, "refused");
    checks.same(answer.0, "B");
    checks.same(
        kind_of(alloc, &patched(counted, 96, 255)),
        Some(ErrorKind::InvalidData),
    );
    // e_shstrndx is SHN_XINDEX, and sh_link of the first section header is 1
    let marked = patched(
        patched(nested_functions(alloc).expect(&rt, "refused"), 62, 0xff),
        63,
        0xff,
    );
    let linked = patched(marked, 104, 1);
    let answer = found(alloc, &linked, 15).expect(&rt, "refused");
    checks.same(answer.0, "B");
    checks.same(
        kind_of(alloc, &patched(linked, 104, 9)),
        Some(ErrorKind::InvalidInput),
    );
    checks.result()
}
