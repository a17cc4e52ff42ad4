//! The file that debug files share, by its build id.
use super::{
    differs, holding, is_at, open_lone, open_with, opens_with_common, put_with_id, sharing,
    stands_alone,
};
use blz_checks::Checks;
use blz_images::{ByteOrder, Image, debug_altlink, debug_link, with_build_id};
use blz_links::debug_link_crc32;
use std::test::Fail;

#[test]
fn a_file_of_the_recorded_build_id_is_shared(rt: HostRuntime) -> Result<(), Fail> {
    let mut checks = Checks::new();
    let alloc = rt.alloc();
    let common = with_build_id(alloc, b"12345678").expect(&rt, "refused");
    let opened = open_with(
        alloc,
        sharing(alloc, "/y/common").expect(&rt, "refused"),
        "/y/common",
        &common,
    )
    .expect(&rt, "refused");
    checks.holds(is_at(opened.bundle().supplementary, "/y/common", &common));
    checks.result()
}

#[test]
fn another_build_id_or_none_is_refused_with_both(rt: HostRuntime) -> Result<(), Fail> {
    let mut checks = Checks::new();
    let alloc = rt.alloc();
    let other = with_build_id(alloc, b"87654321").expect(&rt, "refused");
    let files: [(&[u8], &[u8]); 2] = [(&other, b"87654321"), (b"no image", b"")];
    for (file, build_id) in files {
        let opened = open_with(
            alloc,
            sharing(alloc, "/y/common").expect(&rt, "refused"),
            "/y/common",
            file,
        );
        checks.holds(differs(opened, build_id, b"12345678"));
    }
    checks.result()
}

#[test]
fn the_debug_files_link_is_followed_and_not_the_images(rt: HostRuntime) -> Result<(), Fail> {
    let mut checks = Checks::new();
    let alloc = rt.alloc();
    let debug = sharing(alloc, "common").expect(&rt, "refused");
    let checksum = debug_link_crc32(&debug);
    let link = debug_link(alloc, ByteOrder::Little, "d/a.debug", checksum).expect(&rt, "refused");
    let other = debug_altlink(alloc, "/y/other", b"87654321").expect(&rt, "refused");
    let image = Image::elf64(alloc)
        .section(".gnu_debuglink", 1, &link)
        .expect(&rt, "refused");
    let image = image
        .section(".gnu_debugaltlink", 1, &other)
        .expect(&rt, "refused")
        .bytes()
        .expect(&rt, "refused");
    let mut files = holding(alloc, image).expect(&rt, "refused");
    files.put("/x/d/a.debug", debug).expect(&rt, "refused");
    put_with_id(alloc, &mut files, "/x/d/common", b"12345678").expect(&rt, "refused");
    put_with_id(alloc, &mut files, "/y/other", b"87654321").expect(&rt, "refused");
    checks.holds(opens_with_common(alloc, &mut files, "/x/d/common").expect(&rt, "refused"));
    checks.result()
}

#[test]
fn a_debug_file_does_not_share_itself(rt: HostRuntime) -> Result<(), Fail> {
    let mut checks = Checks::new();
    let alloc = rt.alloc();
    let opened = open_lone(alloc, sharing(alloc, "./a").expect(&rt, "refused")).expect(
        &rt, "refused",
    );
    checks.holds(stands_alone(&opened.bundle()));
    checks.result()
}
