//! The file that debug files share, by its checksum.
use super::{
    differs, holding, is_at, open_lone, open_with, opens_with_common, put_with_id, stands_alone,
    sup,
};
use blz_checks::Checks;
use blz_images::{ByteOrder, Image, debug_altlink, debug_sup};
use std::alloc::{AllocError, Global};
use std::test::Fail;

// an image with a link of both kinds
fn with_both_links(alloc: Global) -> Result<Vec<u8>, AllocError> {
    let link = debug_altlink(alloc, "common", b"12345678")?;
    let section = debug_sup(alloc, ByteOrder::Little, "a.sup", b"sum")?;
    let image = Image::elf64(alloc).section(".gnu_debugaltlink", 1, &link)?;
    image.section(".debug_sup", 1, &section)?.bytes()
}

#[test]
fn a_supplementary_file_of_the_checksum_is_shared(rt: HostRuntime) -> Result<(), Fail> {
    let mut checks = Checks::new();
    let alloc = rt.alloc();
    let shared = sup(alloc, "", b"sum").expect(&rt, "refused");
    // also where there is a link to an alternative file, which is not there
    for image in [
        sup(alloc, "a.sup", b"sum").expect(&rt, "refused"),
        with_both_links(alloc).expect(&rt, "refused"),
    ] {
        let opened = open_with(alloc, image, "/x/a.sup", &shared).expect(&rt, "refused");
        checks.holds(is_at(opened.bundle().supplementary, "/x/a.sup", &shared));
    }
    checks.result()
}

#[test]
fn an_alternative_file_comes_before_the_supplementary_one(rt: HostRuntime) -> Result<(), Fail> {
    let mut checks = Checks::new();
    let alloc = rt.alloc();
    let mut files = holding(alloc, with_both_links(alloc).expect(&rt, "refused")).expect(
        &rt, "refused",
    );
    files
        .put("/x/a.sup", sup(alloc, "", b"sum").expect(&rt, "refused"))
        .expect(&rt, "refused");
    put_with_id(alloc, &mut files, "/x/common", b"12345678").expect(&rt, "refused");
    checks.holds(opens_with_common(alloc, &mut files, "/x/common").expect(&rt, "refused"));
    checks.result()
}

#[test]
fn a_file_that_leads_nowhere_or_to_itself_stands_alone(rt: HostRuntime) -> Result<(), Fail> {
    let mut checks = Checks::new();
    let alloc = rt.alloc();
    for path in ["", "a"] {
        let opened = open_lone(alloc, sup(alloc, path, b"sum").expect(&rt, "refused")).expect(
            &rt, "refused",
        );
        checks.holds(stands_alone(&opened.bundle()));
    }
    checks.result()
}

#[test]
fn another_flag_or_checksum_is_refused_with_both(rt: HostRuntime) -> Result<(), Fail> {
    let mut checks = Checks::new();
    let alloc = rt.alloc();
    // a file that is no supplementary one has the flag 0
    let files: [(&str, &[u8], &[u8], &[u8]); 2] = [
        ("b.sup", b"sum", &[0], &[1]),
        ("", b"other sum", b"other sum", b"sum"),
    ];
    for (path, checksum, actual, recorded) in files {
        let file = sup(alloc, path, checksum).expect(&rt, "refused");
        let opened = open_with(
            alloc,
            sup(alloc, "a.sup", b"sum").expect(&rt, "refused"),
            "/x/a.sup",
            &file,
        );
        checks.holds(differs(opened, actual, recorded));
    }
    checks.result()
}
