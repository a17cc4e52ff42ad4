//! Words that are not of their form.
use crate::tests::runs::{nested, run_roomy, written};
use blz_checks::Checks;
use std::alloc::{AllocError, Global};
use std::test::Fail;

const USAGE: &[u8] = b"usage: blz_tool [--basic | --lines] [--debug-dirs A:B] PATH ADDR..\n";

// each list of words is told the usage
fn check_usage(checks: &mut Checks, alloc: Global, lists: &[&[&str]]) -> Result<(), AllocError> {
    let mut files = nested(alloc)?;
    for words in lists {
        let ended = run_roomy(alloc, &mut files, words)?;
        checks.holds(ended.is(2, b"", USAGE));
    }
    Ok(())
}

#[test]
fn a_word_that_is_no_address_is_told_the_usage(rt: HostRuntime) -> Result<(), Fail> {
    let mut checks = Checks::new();
    for word in [
        "",
        "0x",
        "g",
        "0X1",
        "12345678901234567",
        "0x12345678901234567",
        "+1",
    ] {
        check_usage(&mut checks, rt.alloc(), &[&["a.elf", "f", word]]).expect(&rt, "refused");
    }
    checks.result()
}

#[test]
fn a_number_of_functions_that_is_none_is_told_the_usage(rt: HostRuntime) -> Result<(), Fail> {
    let mut checks = Checks::new();
    for word in ["0", "100001", "01", "", "x", "5x", "18446744073709551617"] {
        check_usage(&mut checks, rt.alloc(), &[&["--demo", word]]).expect(&rt, "refused");
    }
    checks.result()
}

#[test]
fn a_word_beside_the_demo_is_told_the_usage(rt: HostRuntime) -> Result<(), Fail> {
    let mut checks = Checks::new();
    let lists = [
        ["--demo", "5", "a.elf"].as_slice(),
        ["--demo", "5", "--basic"].as_slice(),
        ["--lines", "--demo", "5"].as_slice(),
        ["--demo", "5", "--debug-dirs", "/d"].as_slice(),
        ["--demo", "5", "--demo", "5"].as_slice(),
    ];
    check_usage(&mut checks, rt.alloc(), &lists).expect(&rt, "refused");
    checks.result()
}

#[test]
fn no_words_are_told_the_usage(rt: HostRuntime) -> Result<(), Fail> {
    let mut checks = Checks::new();
    let alloc = rt.alloc();
    let mut files = nested(alloc).expect(&rt, "refused");
    checks.holds(
        run_roomy(alloc, &mut files, &[])
            .expect(&rt, "refused")
            .is(2, b"", USAGE),
    );
    checks.result()
}

#[test]
fn options_that_stand_wrongly_are_told_the_usage(rt: HostRuntime) -> Result<(), Fail> {
    let mut checks = Checks::new();
    let lists = [
        ["--basic"].as_slice(),
        ["--basic", "--lines", "a.elf", "f"].as_slice(),
        ["--basic", "--basic", "a.elf", "f"].as_slice(),
        ["--debug-dirs"].as_slice(),
        ["--nothing", "a.elf"].as_slice(),
        ["--help"].as_slice(),
        ["--version"].as_slice(),
    ];
    check_usage(&mut checks, rt.alloc(), &lists).expect(&rt, "refused");
    checks.result()
}

#[test]
fn addresses_of_either_case_with_the_prefix_or_not_are_taken(rt: HostRuntime) -> Result<(), Fail> {
    let mut checks = Checks::new();
    let alloc = rt.alloc();
    let mut files = nested(alloc).expect(&rt, "refused");
    let out = written(alloc, &mut files, &["a.elf", "0xF", "000000000000000f"]).expect(
        &rt, "refused",
    );
    checks.same(
        out.bytes(),
        b"000000000000000f B\n000000000000000f B\n".as_slice(),
    );
    checks.result()
}
