//! The debug file of an image.
use super::{
    DIGITS_CHECKSUM, differs, is_at, linked, open, open_lone, open_with, refusal, stands_alone,
    with_digits,
};
use blz_bundle::OwnedBundle;
use blz_checks::Checks;
use blz_error::ErrorKind;
use blz_images::{ByteOrder, Image, build_id_note, debug_link};
use blz_links::MemoryFiles;
use std::test::Fail;

#[test]
fn the_debug_file_beside_an_image_is_found(rt: HostRuntime) -> Result<(), Fail> {
    let mut checks = Checks::new();
    let alloc = rt.alloc();
    let image = linked(alloc, "a.debug", DIGITS_CHECKSUM).expect(&rt, "refused");
    let opened = open_with(alloc, image, "/x/a.debug", b"123456789").expect(&rt, "refused");
    checks.same(opened.bundle().module, Some("/x/a"));
    checks.holds(is_at(opened.bundle().linkee, "/x/a.debug", b"123456789"));
    checks.result()
}

#[test]
fn after_a_checksum_that_differs_no_later_file_is_tried(rt: HostRuntime) -> Result<(), Fail> {
    let mut checks = Checks::new();
    let alloc = rt.alloc();
    let mut files = with_digits(alloc, "/usr/lib/debug/x/a.debug").expect(&rt, "refused");
    files
        .put("/x/a.debug", Vec::new(alloc))
        .expect(&rt, "refused");
    // the calls before: a read, the path of the linker, three candidates, a read
    files.fail_at(7, true).expect(&rt, "refused");
    let opened = open(alloc, &mut files);
    checks.holds(differs(opened, &[0, 0, 0, 0], &[0xcb, 0xf4, 0x39, 0x26]));
    checks.result()
}

#[test]
fn the_debug_file_is_found_by_the_build_id_of_the_image(rt: HostRuntime) -> Result<(), Fail> {
    let mut checks = Checks::new();
    let alloc = rt.alloc();
    let notes = build_id_note(
        alloc,
        ByteOrder::Little,
        b"\xbe\xef\xbe\xef\xfe\xed\xba\xbe",
    )
    .expect(&rt, "refused");
    let link = debug_link(alloc, ByteOrder::Little, "a.debug", DIGITS_CHECKSUM).expect(
        &rt, "refused",
    );
    let image = Image::elf64(alloc)
        .section(".note", 7, &notes)
        .expect(&rt, "refused");
    let image = image
        .section(".gnu_debuglink", 1, &link)
        .expect(&rt, "refused")
        .bytes()
        .expect(&rt, "refused");
    let path = "/usr/lib/debug/.build-id/be/efbeeffeedbabe.debug";
    let opened = open_with(alloc, image, path, b"123456789").expect(&rt, "refused");
    checks.holds(is_at(opened.bundle().linkee, path, b"123456789"));
    checks.result()
}

#[test]
fn directories_that_are_handed_in_replace_the_default_ones(rt: HostRuntime) -> Result<(), Fail> {
    let mut checks = Checks::new();
    let alloc = rt.alloc();
    let mut files = with_digits(alloc, "/opt/debug/a.debug").expect(&rt, "refused");
    let dirs = [String::from_str(alloc, "/opt/debug").expect(&rt, "refused")];
    let opened = OwnedBundle::open_with_debug_dirs(alloc, &mut files, "/x/a", &dirs).expect(
        &rt, "refused",
    );
    checks.holds(is_at(opened.bundle().linkee, "/opt/debug/a.debug", b"123456789"));
    let opened = open(alloc, &mut files).expect(&rt, "refused");
    checks.holds(stands_alone(&opened.bundle()));
    checks.result()
}

#[test]
fn a_link_to_the_image_itself_or_to_a_directory_leads_nowhere(rt: HostRuntime) -> Result<(), Fail> {
    let mut checks = Checks::new();
    let alloc = rt.alloc();
    let lone = open_lone(alloc, linked(alloc, "a", 0).expect(&rt, "refused")).expect(
        &rt, "refused",
    );
    checks.holds(stands_alone(&lone.bundle()));
    let opened = open_with(
        alloc,
        linked(alloc, "debug/", 0).expect(&rt, "refused"),
        "/x/debug/b",
        b"123456789",
    )
    .expect(&rt, "refused");
    checks.holds(stands_alone(&opened.bundle()));
    checks.result()
}

#[test]
fn a_path_that_names_nothing_is_not_found(rt: HostRuntime) -> Result<(), Fail> {
    let mut checks = Checks::new();
    let alloc = rt.alloc();
    let mut files = MemoryFiles::new(alloc);
    files.put("/x/a/", Vec::new(alloc)).expect(&rt, "refused");
    checks.same(refusal(open(alloc, &mut files)), Some(ErrorKind::NotFound));
    checks.result()
}
