//! Links that are refused, whatever they lead to.
use super::{is_invalid, open_lone, open_with, refusal, sup};
use blz_checks::Checks;
use blz_error::ErrorKind;
use blz_images::{with_build_id, with_compressed_section, with_section};
use std::test::Fail;

// a section of which two bytes of the version are followed by no flag
const NO_FLAG: &[u8] = b"\x05\0\x02";

#[test]
fn broken_links_are_invalid(rt: HostRuntime) -> Result<(), Fail> {
    let mut checks = Checks::new();
    let alloc = rt.alloc();
    let common = with_build_id(alloc, b"12345678").expect(&rt, "refused");
    let links: [(&str, &[u8]); 3] = [
        (".gnu_debuglink", b"a.debug\0"),
        (".gnu_debugaltlink", b"common\0"),
        (".debug_sup", NO_FLAG),
    ];
    for (name, bytes) in links {
        let image = with_section(alloc, name, bytes).expect(&rt, "refused");
        checks.holds(is_invalid(open_with(alloc, image, "/x/common", &common)));
    }
    checks.result()
}

#[test]
fn compressed_links_are_unsupported(rt: HostRuntime) -> Result<(), Fail> {
    let mut checks = Checks::new();
    let alloc = rt.alloc();
    for name in [".gnu_debuglink", ".gnu_debugaltlink"] {
        let opened = open_lone(
            alloc,
            with_compressed_section(alloc, name).expect(&rt, "refused"),
        );
        checks.same(refusal(opened), Some(ErrorKind::Unsupported));
    }
    checks.result()
}

#[test]
fn broken_or_compressed_supplementary_sections_are_refused(rt: HostRuntime) -> Result<(), Fail> {
    let mut checks = Checks::new();
    let alloc = rt.alloc();
    let broken = with_section(alloc, ".debug_sup", NO_FLAG).expect(&rt, "refused");
    for file in [b"no image".as_slice(), broken.as_slice()] {
        let image = sup(alloc, "a.sup", b"sum").expect(&rt, "refused");
        checks.holds(is_invalid(open_with(alloc, image, "/x/a.sup", file)));
    }
    let image = sup(alloc, "a.sup", b"sum").expect(&rt, "refused");
    let compressed = with_compressed_section(alloc, ".debug_sup").expect(&rt, "refused");
    let opened = open_with(alloc, image, "/x/a.sup", &compressed);
    checks.same(refusal(opened), Some(ErrorKind::Unsupported));
    checks.result()
}
