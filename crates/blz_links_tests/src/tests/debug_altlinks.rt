//! The bytes of `.gnu_debugaltlink`.
use crate::tests::message;
use blz_checks::Checks;
use blz_links::parse_debug_altlink;
use std::alloc::{AllocError, Global};
use std::test::Fail;

// why the bytes are refused, or the path and the number of bytes of the build id
fn answer(alloc: Global, bytes: &[u8]) -> Result<String, AllocError> {
    match parse_debug_altlink(bytes) {
        Ok(link) => {
            let size = link.build_id.len();
            format!(in alloc; "{} {size}", link.path)
        },
        Err(e) => message(alloc, &e),
    }
}

#[test]
fn a_link_has_a_path_and_a_build_id(rt: HostRuntime) -> Result<(), Fail> {
    let mut checks = Checks::new();
    let text = answer(rt.alloc(), b"/usr/lib/debug/common.debug\0\x01\x02\x03").expect(
        &rt, "refused",
    );
    checks.same(text.as_str(), "/usr/lib/debug/common.debug 3");
    checks.result()
}

#[test]
fn the_first_check_that_fails_is_told(rt: HostRuntime) -> Result<(), Fail> {
    let mut checks = Checks::new();
    let answers: [(&[u8], &str); 4] = [
        // a path without its zero, an empty one, and one that is not text
        (b"/usr", "invalid data: failed to read debug altlink path"),
        (b"\0\x01", "invalid data: debug altlink target is empty"),
        (b"\xc3\0\x01", "invalid data: link target is not text"),
        // an empty build id
        (
            b"a\0",
            "invalid data: failed to read debug altlink build ID",
        ),
    ];
    for (bytes, text) in answers {
        checks.same(
            answer(rt.alloc(), bytes).expect(&rt, "refused").as_str(),
            text,
        );
    }
    checks.result()
}
