//! The bytes of `.debug_sup`.
use crate::tests::message;
use blz_bytes::ByteOrder;
use blz_checks::Checks;
use blz_links::parse_debug_sup;
use std::alloc::{AllocError, Global};
use std::test::Fail;

// why the bytes are refused, or the version, the path and the number of bytes of the checksum
fn answer(alloc: Global, bytes: &[u8]) -> Result<String, AllocError> {
    match parse_debug_sup(bytes, ByteOrder::Little) {
        Ok(sup) => {
            let path = sup.path.unwrap_or("no path");
            let size = sup.checksum.len();
            format!(in alloc; "{} {path} {size}", sup.version)
        },
        Err(e) => message(alloc, &e),
    }
}

// each of some bytes has its answer
fn check_answers(
    checks: &mut Checks,
    alloc: Global,
    answers: &[(&[u8], &str)],
) -> Result<(), AllocError> {
    for (bytes, text) in answers {
        checks.same(answer(alloc, bytes)?.as_str(), *text);
    }
    Ok(())
}

#[test]
fn only_a_file_that_is_no_supplementary_one_has_a_path(rt: HostRuntime) -> Result<(), Fail> {
    let mut checks = Checks::new();
    let answers: [(&[u8], &str); 2] = [
        (b"\x05\0\0sup.debug\0\x02\xab\xcd", "5 sup.debug 2"),
        (b"\x05\0\x01\0\x02\xab\xcd", "5 no path 2"),
    ];
    check_answers(&mut checks, rt.alloc(), &answers).expect(&rt, "refused");
    checks.result()
}

#[test]
fn each_cut_says_what_is_missing(rt: HostRuntime) -> Result<(), Fail> {
    let mut checks = Checks::new();
    let size = "invalid data: failed to read .debug_sup sup_checksum_len";
    let sum = "invalid data: failed to read .debug_sup checksum";
    let answers: [(&[u8], &str); 6] = [
        (b"\x05", "invalid data: failed to read .debug_sup version"),
        (
            b"\x05\0",
            "invalid data: failed to read .debug_sup is_supplementary",
        ),
        (
            b"\x05\0\0x",
            "invalid data: failed to read .debug_sup file field",
        ),
        (b"\x05\0\0x\0", size),
        (b"\x05\0\0x\0\x80", size),
        (b"\x05\0\0x\0\x2001234567890123456789", sum),
    ];
    check_answers(&mut checks, rt.alloc(), &answers).expect(&rt, "refused");
    checks.result()
}

#[test]
fn a_path_has_to_go_with_the_flag(rt: HostRuntime) -> Result<(), Fail> {
    let mut checks = Checks::new();
    let named = "invalid data: debug sup target is not empty in a supplementary file";
    let answers: [(&[u8], &str); 4] = [
        (
            b"\x05\0\x02",
            "invalid data: invalid is_supplementary field value",
        ),
        (b"\x05\0\0\0\0", "invalid data: debug sup target is empty"),
        (b"\x05\0\x01x\0\0", named),
        (
            b"\x05\0\x01\xff\0\0",
            "invalid data: link target is not text",
        ),
    ];
    check_answers(&mut checks, rt.alloc(), &answers).expect(&rt, "refused");
    checks.result()
}
