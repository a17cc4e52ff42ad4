//! The words of the program.
use super::images::one_unit;
use super::runs::{holding, run_roomy};
use blz_checks::Checks;
use std::test::Fail;

const USAGE: &[u8] = b"usage: [--next] IMAGE FILE:LINE\n";

#[test]
fn a_place_has_a_name_and_a_line(rt: HostRuntime) -> Result<(), Fail> {
    let mut checks = Checks::new();
    let alloc = rt.alloc();
    let mut files = holding(alloc, one_unit(alloc).expect(&rt, "refused")).expect(&rt, "refused");
    for place in [
        "a.c",
        ":2",
        "a.c:",
        "a.c:0",
        "a.c:02",
        "a.c:4294967296",
        "a.c:2 ",
    ] {
        let ended = run_roomy(alloc, &mut files, &["a.elf", place]).expect(&rt, "refused");
        checks.same((place, ended.is(2, b"", USAGE)), (place, true));
    }
    for place in ["a:c:2", "a.c:4294967295"] {
        let ended = run_roomy(alloc, &mut files, &["a.elf", place]).expect(&rt, "refused");
        checks.same((place, ended.is(0, b"", b"")), (place, true));
    }
    checks.result()
}

#[test]
fn three_words_begin_with_the_option_and_two_do_not(rt: HostRuntime) -> Result<(), Fail> {
    let mut checks = Checks::new();
    let alloc = rt.alloc();
    let mut files = holding(alloc, one_unit(alloc).expect(&rt, "refused")).expect(&rt, "refused");
    let missing = run_roomy(alloc, &mut files, &["--next", "a.c:2"]).expect(&rt, "refused");
    checks.holds(missing.is(1, b"", b"blz_rows: entity not found\n"));
    let others: [&[&str]; 4] = [
        &[],
        &["a.elf"],
        &["--last", "a.elf", "a.c:2"],
        &["--next", "a.elf", "a.c:2", "a.c:2"],
    ];
    for words in others {
        checks.holds(
            run_roomy(alloc, &mut files, words)
                .expect(&rt, "refused")
                .is(2, b"", USAGE),
        );
    }
    checks.result()
}
