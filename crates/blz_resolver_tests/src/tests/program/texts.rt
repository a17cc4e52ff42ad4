//! Printed numbers and paths.
use blz_bytes::DirPath;
use blz_checks::Checks;
use blz_program::{push_decimal, push_hex, push_path};
use std::test::Fail;

#[test]
fn a_number_has_sixteen_hexadecimal_digits(rt: HostRuntime) -> Result<(), Fail> {
    let mut checks = Checks::new();
    let mut out = Vec::new(rt.alloc());
    push_hex(&mut out, 0x12_3456_789a_bcde).expect(&rt, "refused");
    push_hex(&mut out, u64::MAX).expect(&rt, "refused");
    push_hex(&mut out, 0).expect(&rt, "refused");
    checks.same(
        out.as_slice(),
        b"00123456789abcdeffffffffffffffff0000000000000000".as_slice(),
    );
    checks.result()
}

#[test]
fn a_number_is_printed_in_decimal(rt: HostRuntime) -> Result<(), Fail> {
    let mut checks = Checks::new();
    let mut out = Vec::new(rt.alloc());
    push_decimal(&mut out, 0).expect(&rt, "refused");
    push_decimal(&mut out, u64::MAX).expect(&rt, "refused");
    checks.same(out.as_slice(), b"018446744073709551615".as_slice());
    checks.result()
}

#[test]
fn a_file_is_joined_to_its_directory(rt: HostRuntime) -> Result<(), Fail> {
    let mut checks = Checks::new();
    let paths = [
        ("/src", "lib", "/src/lib"),
        ("/src/", "lib", "/src/lib"),
        ("/src", "/abs", "/abs"),
        ("", "lib", "lib"),
    ];
    for (dir, file, path) in paths {
        let mut out = Vec::new(rt.alloc());
        push_path(&mut out, &DirPath::new(dir.as_bytes()), file.as_bytes()).expect(&rt, "refused");
        checks.same(out.as_slice(), path.as_bytes());
    }
    checks.result()
}
