//! What a run writes where a sink or the files fail.
use crate::tests::runs::{nested, run_roomy, run_to};
use blz_checks::Checks;
use blz_images::{nested_functions, prefix};
use blz_resolver::outside::MemorySink;
use std::alloc::{AllocError, Global};
use std::test::Fail;

const TEXT: &[u8] = b"000000000000000f B\n0000000000000032 ?? (unknown address)\n";

const FAILED: &[u8] = b"blz_tool: write failed\n";

const WORDS: [&str; 3] = ["a.elf", "f", "32"];

// whether a run that writes to this sink ends so
fn ends(
    alloc: Global,
    out: MemorySink,
    status: u8,
    text: &[u8],
    line: &[u8],
) -> Result<bool, AllocError> {
    Ok(run_to(alloc, &mut nested(alloc)?, &WORDS, out)?.is(status, text, line))
}

#[test]
fn a_sink_that_takes_a_byte_at_a_time_has_the_whole_text(rt: HostRuntime) -> Result<(), Fail> {
    let mut checks = Checks::new();
    let out = MemorySink::with_room(rt.alloc(), 100, 1).expect(&rt, "refused");
    checks.holds(ends(rt.alloc(), out, 0, TEXT, b"").expect(&rt, "refused"));
    checks.result()
}

#[test]
fn a_sink_without_room_has_a_front_of_the_text(rt: HostRuntime) -> Result<(), Fail> {
    let mut checks = Checks::new();
    let out = MemorySink::with_room(rt.alloc(), 5, 100).expect(&rt, "refused");
    checks.holds(ends(rt.alloc(), out, 3, b"00000", FAILED).expect(&rt, "refused"));
    checks.result()
}

#[test]
fn a_third_write_that_fails_leaves_what_two_took(rt: HostRuntime) -> Result<(), Fail> {
    let mut checks = Checks::new();
    let mut out = MemorySink::with_room(rt.alloc(), 100, 4).expect(&rt, "refused");
    out.fail_at(3);
    checks.holds(ends(rt.alloc(), out, 3, b"00000000", FAILED).expect(&rt, "refused"));
    checks.result()
}

#[test]
fn files_that_fail_are_told(rt: HostRuntime) -> Result<(), Fail> {
    let mut checks = Checks::new();
    let alloc = rt.alloc();
    let lines = [
        (1, true, b"blz_tool: permission denied\n".as_slice()),
        (2, false, b"blz_tool: other error\n".as_slice()),
        (1, false, b"blz_tool: other error\n".as_slice()),
    ];
    for (call, denied, line) in lines {
        let mut files = nested(alloc).expect(&rt, "refused");
        files.fail_at(call, denied).expect(&rt, "refused");
        checks.holds(
            run_roomy(alloc, &mut files, &WORDS)
                .expect(&rt, "refused")
                .is(1, b"", line),
        );
    }
    checks.result()
}

#[test]
fn no_third_call_is_made_of_files_without_links(rt: HostRuntime) -> Result<(), Fail> {
    let mut checks = Checks::new();
    let alloc = rt.alloc();
    let mut files = nested(alloc).expect(&rt, "refused");
    files.fail_at(3, false).expect(&rt, "refused");
    checks.holds(
        run_roomy(alloc, &mut files, &WORDS)
            .expect(&rt, "refused")
            .is(0, TEXT, b""),
    );
    checks.result()
}

#[test]
fn a_path_that_names_nothing_and_a_short_image_are_told(rt: HostRuntime) -> Result<(), Fail> {
    let mut checks = Checks::new();
    let alloc = rt.alloc();
    let mut files = nested(alloc).expect(&rt, "refused");
    let missing = run_roomy(alloc, &mut files, &["b.elf"]).expect(&rt, "refused");
    checks.holds(missing.is(1, b"", b"blz_tool: entity not found\n"));
    files
        .put(
            "short",
            prefix(&nested_functions(alloc).expect(&rt, "refused"), 10)
                .to_vec(alloc)
                .expect(&rt, "refused"),
        )
        .expect(&rt, "refused");
    let short = run_roomy(alloc, &mut files, &["short"]).expect(&rt, "refused");
    checks.holds(short.is(1, b"", b"blz_tool: invalid data\n"));
    checks.result()
}
