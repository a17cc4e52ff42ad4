//! The bytes of `.gnu_debuglink`.
use crate::tests::message;
use blz_bytes::ByteOrder;
use blz_checks::Checks;
use blz_links::parse_debug_link;
use std::alloc::{AllocError, Global};
use std::test::Fail;

// why the bytes are refused, or the name that they have
fn answer(alloc: Global, bytes: &[u8]) -> Result<String, AllocError> {
    match parse_debug_link(bytes, ByteOrder::Little) {
        Ok(link) => String::from_str(alloc, link.file),
        Err(e) => message(alloc, &e),
    }
}

// the checksum that the bytes have, and 0 where they are refused
fn checksum(bytes: &[u8], order: ByteOrder) -> u32 {
    match parse_debug_link(bytes, order) {
        Ok(link) => link.checksum,
        Err(_) => 0,
    }
}

#[test]
fn a_link_has_a_name_and_a_checksum(rt: HostRuntime) -> Result<(), Fail> {
    let mut checks = Checks::new();
    let bytes = b"program.debug\0\0\0\x69\xc4\xd4\xa6";
    checks.same(
        answer(rt.alloc(), bytes).expect(&rt, "refused").as_str(),
        "program.debug",
    );
    checks.same(checksum(bytes, ByteOrder::Little), 0xa6d4_c469);
    checks.result()
}

#[test]
fn the_checksum_is_read_in_the_order_of_the_image() -> Result<(), Fail> {
    let mut checks = Checks::new();
    let bytes = b"program.debug\0\0\0\x69\xc4\xd4\xa6";
    checks.same(checksum(bytes, ByteOrder::Big), 0x69c4_d4a6);
    checks.result()
}

#[test]
fn the_first_check_that_fails_is_told(rt: HostRuntime) -> Result<(), Fail> {
    let mut checks = Checks::new();
    let unended = "invalid data: failed to read debug link file name";
    let padding = "invalid data: debug link section contains insufficient data: checksum not found";
    let checksum = "invalid data: failed to read debug link checksum";
    let answers: [(&[u8], &str); 8] = [
        // an empty name, one without its zero, and one that is not text
        (
            b"\0\0\0\x69\xc4\xd4\xa6",
            "invalid data: debug link target is empty",
        ),
        (b"program", unended),
        (b"", unended),
        (b"\xff", unended),
        (
            b"\xff\0\0\0\0\0\0\0",
            "invalid data: link target is not text",
        ),
        // a checksum that is cut off
        (b"a\0\0", padding),
        (b"a\0\0\0", checksum),
        (b"a\0\0\0\x01\x02\x03", checksum),
    ];
    for (bytes, text) in answers {
        checks.same(
            answer(rt.alloc(), bytes).expect(&rt, "refused").as_str(),
            text,
        );
    }
    checks.result()
}
