//! Whole runs over files and sinks in memory.
use super::images::{cut_short, one_unit, two_units};
use blz_bytes::ByStdSort;
use blz_checks::Checks;
use blz_resolver::files::MemoryFiles;
use blz_resolver::outside::MemorySink;
use blz_rows::run_rows;
use blz_runs::{Ran, roomy, run_with};
use std::alloc::{AllocError, Global};
use std::test::Fail;

/// Runs on these words.
pub fn run_to(alloc: Global, files: &mut MemoryFiles, words: &[&str], out: MemorySink) -> Ran {
    run_with(alloc, words, out, |words, out, line| {
        run_rows(alloc, words, files, &mut ByStdSort, out, line)
    })
}

/// A run whose sink has room.
pub fn run_roomy(alloc: Global, files: &mut MemoryFiles, words: &[&str]) -> Ran {
    run_to(alloc, files, words, roomy(alloc)?)
}

pub fn holding(alloc: Global, image: Vec<u8>) -> Result<MemoryFiles, AllocError> {
    let mut files = MemoryFiles::new(alloc);
    files.put("a.elf", image)?;
    Ok(files)
}

#[test]
fn the_addresses_of_a_line_are_printed(rt: HostRuntime) -> Result<(), Fail> {
    let mut checks = Checks::new();
    let alloc = rt.alloc();
    let mut files = holding(alloc, one_unit(alloc).expect(&rt, "refused")).expect(&rt, "refused");
    let out = MemorySink::with_room(alloc, 100, 1).expect(&rt, "refused");
    let ended = run_to(alloc, &mut files, &["a.elf", "a.c:2"], out).expect(&rt, "refused");
    checks.holds(ended.is(0, b"0000000000001004\n0000000000001015\n", b""));
    checks.result()
}

#[test]
fn the_next_line_is_printed_where_there_is_one(rt: HostRuntime) -> Result<(), Fail> {
    let mut checks = Checks::new();
    let alloc = rt.alloc();
    let mut files = holding(alloc, one_unit(alloc).expect(&rt, "refused")).expect(&rt, "refused");
    for (place, text) in [("p/a.c:1", b"2\n".as_slice()), ("a.c:3", b"".as_slice())] {
        let words = ["--next", "a.elf", place];
        checks.holds(
            run_roomy(alloc, &mut files, &words)
                .expect(&rt, "refused")
                .is(0, text, b""),
        );
    }
    checks.result()
}

#[test]
fn broken_lines_are_told_by_their_kind(rt: HostRuntime) -> Result<(), Fail> {
    let mut checks = Checks::new();
    let alloc = rt.alloc();
    let image = two_units(alloc, &cut_short(alloc).expect(&rt, "refused")).expect(&rt, "refused");
    let words = ["a.elf", "a.c:2"];
    let ended = run_roomy(
        alloc,
        &mut holding(alloc, image).expect(&rt, "refused"),
        &words,
    )
    .expect(&rt, "refused");
    checks.holds(ended.is(1, b"", b"blz_rows: DWARF data invalid\n"));
    checks.result()
}

#[test]
fn a_sink_that_fails_has_a_front_of_the_text(rt: HostRuntime) -> Result<(), Fail> {
    let mut checks = Checks::new();
    let alloc = rt.alloc();
    let small = MemorySink::with_room(alloc, 5, 100).expect(&rt, "refused");
    let words = ["a.elf", "a.c:2"];
    let ended = run_to(
        alloc,
        &mut holding(alloc, one_unit(alloc).expect(&rt, "refused")).expect(&rt, "refused"),
        &words,
        small,
    )
    .expect(&rt, "refused");
    checks.holds(ended.is(3, b"00000", b"blz_rows: write failed\n"));
    checks.result()
}
