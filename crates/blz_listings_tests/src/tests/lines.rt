//! Whole runs that list lines, over files and sinks in memory.
use super::images::{MINUS_ONE, cut_short, one_row, three_rows, two_units};
use blz_bytes::ByStdSort;
use blz_checks::Checks;
use blz_listings::run_lines;
use blz_resolver::files::MemoryFiles;
use blz_resolver::outside::MemorySink;
use blz_runs::{Ran, roomy, run_with};
use std::alloc::{AllocError, Global};
use std::test::Fail;

fn run_to(alloc: Global, files: &mut MemoryFiles, words: &[&str], out: MemorySink) -> Ran {
    run_with(alloc, words, out, |words, out, line| {
        run_lines(alloc, words, files, &mut ByStdSort, out, line)
    })
}

// A run over an image at `a.elf`.
fn run_roomy(alloc: Global, image: Vec<u8>, words: &[&str]) -> Ran {
    run_to(alloc, &mut holding(alloc, image)?, words, roomy(alloc)?)
}

fn holding(alloc: Global, image: Vec<u8>) -> Result<MemoryFiles, AllocError> {
    let mut files = MemoryFiles::new(alloc);
    files.put("a.elf", image)?;
    Ok(files)
}

// Two units that share a place.
fn shared(alloc: Global) -> Result<Vec<u8>, AllocError> {
    two_units(alloc, &three_rows(alloc)?, &one_row(alloc, 1)?)
}

#[test]
fn each_place_is_told_once_with_the_number_of_its_rows(rt: HostRuntime) -> Result<(), Fail> {
    let mut checks = Checks::new();
    let alloc = rt.alloc();
    let image = shared(alloc).expect(&rt, "refused");
    let ended = run_roomy(alloc, image, &["a.elf"]).expect(&rt, "refused");
    checks.holds(ended.is(0, b"/p/a.c:2 3\n/p/b.c:7 1\n", b""));
    checks.result()
}

#[test]
fn each_row_is_told_in_the_order_of_units_and_rows(rt: HostRuntime) -> Result<(), Fail> {
    let mut checks = Checks::new();
    let alloc = rt.alloc();
    let image = shared(alloc).expect(&rt, "refused");
    let ended = run_roomy(alloc, image, &["--rows", "a.elf"]).expect(&rt, "refused");
    let text = b"0000000000001000 0000000000001004 /p/a.c:2\n\
        0000000000001004 0000000000001008 /p/b.c:7\n\
        0000000000001008 0000000000001010 /p/a.c:2\n\
        0000000000002000 0000000000002004 /p/a.c:2\n";
    checks.holds(ended.is(0, text, b""));
    checks.result()
}

// A row of line 0, and in another unit one of line 1.
fn with_line_0(alloc: Global) -> Result<Vec<u8>, AllocError> {
    two_units(alloc, &one_row(alloc, MINUS_ONE)?, &one_row(alloc, 0)?)
}

#[test]
fn line_0_is_no_place(rt: HostRuntime) -> Result<(), Fail> {
    let mut checks = Checks::new();
    let alloc = rt.alloc();
    let image = with_line_0(alloc).expect(&rt, "refused");
    let ended = run_roomy(alloc, image, &["a.elf"]).expect(&rt, "refused");
    checks.holds(ended.is(0, b"/p/a.c:1 1\n", b""));
    checks.result()
}

#[test]
fn line_0_is_a_row(rt: HostRuntime) -> Result<(), Fail> {
    let mut checks = Checks::new();
    let alloc = rt.alloc();
    let image = with_line_0(alloc).expect(&rt, "refused");
    let ended = run_roomy(alloc, image, &["--rows", "a.elf"]).expect(&rt, "refused");
    let text = b"0000000000002000 0000000000002004 /p/a.c:0\n\
        0000000000002000 0000000000002004 /p/a.c:1\n";
    checks.holds(ended.is(0, text, b""));
    checks.result()
}

#[test]
fn broken_lines_of_a_later_unit_are_told_by_their_kind(rt: HostRuntime) -> Result<(), Fail> {
    let mut checks = Checks::new();
    let alloc = rt.alloc();
    let good = three_rows(alloc).expect(&rt, "refused");
    let image = two_units(alloc, &good, &cut_short(alloc).expect(&rt, "refused"));
    let ended = run_roomy(alloc, image.expect(&rt, "refused"), &["a.elf"]).expect(&rt, "refused");
    checks.holds(ended.is(1, b"", b"blz_lines: DWARF data invalid\n"));
    checks.result()
}

#[test]
fn a_sink_that_fails_has_a_front_of_the_text(rt: HostRuntime) -> Result<(), Fail> {
    let mut checks = Checks::new();
    let alloc = rt.alloc();
    let small = MemorySink::with_room(alloc, 5, 100).expect(&rt, "refused");
    let mut files = holding(alloc, shared(alloc).expect(&rt, "refused")).expect(&rt, "refused");
    let ended = run_to(alloc, &mut files, &["a.elf"], small).expect(&rt, "refused");
    checks.holds(ended.is(3, b"/p/a.", b"blz_lines: write failed\n"));
    checks.result()
}

#[test]
fn words_of_another_form_are_told_the_usage(rt: HostRuntime) -> Result<(), Fail> {
    let mut checks = Checks::new();
    let alloc = rt.alloc();
    let mut files = holding(alloc, shared(alloc).expect(&rt, "refused")).expect(&rt, "refused");
    let others: [&[&str]; 4] = [
        &[],
        &["--next", "a.elf"],
        &["a.elf", "--rows"],
        &["--rows", "a.elf", "a.c"],
    ];
    for words in others {
        let out = roomy(alloc).expect(&rt, "refused");
        let ended = run_to(alloc, &mut files, words, out).expect(&rt, "refused");
        checks.holds(ended.is(2, b"", b"usage: [--rows] IMAGE\n"));
    }
    checks.result()
}
