//! Checksums.
use blz_checks::Checks;
use blz_links::debug_link_crc32;
use std::test::Fail;

#[test]
fn the_checksum_of_nine_digits_is_the_known_one() -> Result<(), Fail> {
    let mut checks = Checks::new();
    checks.same(debug_link_crc32(b"123456789"), 0xcbf4_3926);
    checks.result()
}

#[test]
fn nothing_has_the_checksum_zero() -> Result<(), Fail> {
    let mut checks = Checks::new();
    checks.same(debug_link_crc32(b""), 0);
    checks.result()
}

#[test]
fn a_sentence_has_its_known_checksum() -> Result<(), Fail> {
    let mut checks = Checks::new();
    checks.same(
        debug_link_crc32(b"The quick brown fox jumps over the lazy dog"),
        0x414f_a339,
    );
    checks.result()
}
