//! Numbers as words, and the lines of a text.
use blz_checks::Checks;
use blz_program::{address, first_line, number_up_to};
use std::test::Fail;

#[test]
fn an_address_has_1_to_16_digits() -> Result<(), Fail> {
    let mut checks = Checks::new();
    checks.same(address(b"0"), Some(0));
    checks.same(address(b"0xFf"), Some(255));
    checks.same(address(b"ffffffffffffffff"), Some(u64::MAX));
    checks.same(address(b"00000000000000001"), None);
    for word in ["", "0x", "0X1", "g", "-1", " 1", "0x0x1"] {
        checks.same(address(word.as_bytes()), None);
    }
    checks.result()
}

#[test]
fn a_number_has_no_leading_zeros_and_is_at_most_another() -> Result<(), Fail> {
    let mut checks = Checks::new();
    checks.same(number_up_to(b"1", 1), Some(1));
    checks.same(number_up_to(b"2", 1), None);
    checks.same(number_up_to(b"100000", 100_000), Some(100_000));
    checks.same(
        number_up_to(b"18446744073709551615", u64::MAX),
        Some(u64::MAX),
    );
    checks.same(number_up_to(b"18446744073709551616", u64::MAX), None);
    for word in [
        "",
        "0",
        "01",
        "1x",
        "x1",
        "+1",
        "100000000000000000000000000",
    ] {
        checks.same(number_up_to(word.as_bytes(), u64::MAX), None);
    }
    checks.result()
}

#[test]
fn the_last_line_may_lack_its_line_feed() -> Result<(), Fail> {
    let mut checks = Checks::new();
    let two = (b"a".as_slice(), b"b".as_slice());
    checks.same(first_line(b"a\nb"), Some(two));
    checks.same(first_line(b"b"), Some((b"b".as_slice(), b"".as_slice())));
    checks.same(first_line(b"b\n"), Some((b"b".as_slice(), b"".as_slice())));
    checks.same(
        first_line(b"\n\n"),
        Some((b"".as_slice(), b"\n".as_slice())),
    );
    checks.same(first_line(b""), None);
    checks.result()
}
