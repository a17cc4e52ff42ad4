//! Build ids of images.
use blz_checks::Checks;
use blz_elf::ElfParser;
use blz_images::{ByteOrder, Image, Segment, build_id_note, note};
use blz_links::read_build_id;
use std::alloc::{AllocError, Global};
use std::test::Fail;

/// SHT_NOTE.
const NOTES: u32 = 7;

// the build id of an image, and one that no test has where it has none
fn build_id<'b>(alloc: Global, image: &'b [u8]) -> &'b [u8] {
    let mut parser = ElfParser::from_mem(alloc, image, None);
    read_build_id(&mut parser).unwrap_or(b"none")
}

// an image that has nothing but a segment of notes
fn in_a_segment(alloc: Global, notes: &[u8]) -> Result<Vec<u8>, AllocError> {
    let segment = Segment {
        kind: 4,
        offset: 120,
        address: 0,
        file_size: notes.len() as u64,
    };
    let mut image = Image::elf64(alloc).add_segment(segment)?.bytes()?;
    image.extend_from_slice(notes)?;
    Ok(image)
}

#[test]
fn a_build_id_is_the_descriptor_of_its_note(rt: HostRuntime) -> Result<(), Fail> {
    let mut checks = Checks::new();
    let alloc = rt.alloc();
    let notes = build_id_note(alloc, ByteOrder::Big, b"12345678").expect(&rt, "refused");
    let image = Image::elf32(alloc).big_endian();
    let image = image
        .section(".note.id", NOTES, notes.as_slice())
        .expect(&rt, "refused")
        .bytes()
        .expect(&rt, "refused");
    checks.same(build_id(alloc, image.as_slice()), b"12345678".as_slice());
    checks.result()
}

#[test]
fn other_notes_are_passed_over(rt: HostRuntime) -> Result<(), Fail> {
    let mut checks = Checks::new();
    let alloc = rt.alloc();
    let mut notes = note(alloc, ByteOrder::Little, 3, b"Go\0", b"other").expect(&rt, "refused");
    notes
        .extend_from_slice(
            note(alloc, ByteOrder::Little, 1, b"GNU\0", b"abi")
                .expect(&rt, "refused")
                .as_slice(),
        )
        .expect(&rt, "refused");
    notes
        .extend_from_slice(
            build_id_note(alloc, ByteOrder::Little, b"id")
                .expect(&rt, "refused")
                .as_slice(),
        )
        .expect(&rt, "refused");
    let image = Image::elf64(alloc)
        .section(".notes", NOTES, notes.as_slice())
        .expect(&rt, "refused")
        .bytes()
        .expect(&rt, "refused");
    checks.same(build_id(alloc, image.as_slice()), b"id".as_slice());
    checks.result()
}

#[test]
fn without_sections_segments_are_asked_up_to_a_note_cut_short(rt: HostRuntime) -> Result<(), Fail> {
    let mut checks = Checks::new();
    let alloc = rt.alloc();
    let notes = build_id_note(alloc, ByteOrder::Little, b"12345678").expect(&rt, "refused");
    let image = in_a_segment(alloc, notes.as_slice()).expect(&rt, "refused");
    checks.same(build_id(alloc, image.as_slice()), b"12345678".as_slice());
    let cut = in_a_segment(alloc, notes.get(..20).unwrap_or(b"")).expect(&rt, "refused");
    checks.same(build_id(alloc, cut.as_slice()), b"none".as_slice());
    checks.result()
}

#[test]
fn a_broken_image_has_no_build_id(rt: HostRuntime) -> Result<(), Fail> {
    let mut checks = Checks::new();
    checks.same(build_id(rt.alloc(), b"xx"), b"none".as_slice());
    checks.result()
}
