//! Whole runs that find the addresses of names, over files and sinks in memory.
use blz_bytes::ByStdSort;
use blz_checks::Checks;
use blz_images::{ByteOrder, DebugInfo, Image};
use blz_listings::run_find;
use blz_resolver::files::MemoryFiles;
use blz_runs::{Ran, roomy, run_with};
use std::alloc::{AllocError, Global};
use std::test::Fail;

// A run over an image at `a.elf`.
fn run_roomy(alloc: Global, image: Vec<u8>, words: &[&str]) -> Ran {
    let mut files = MemoryFiles::new(alloc);
    files.put("a.elf", image)?;
    run_with(alloc, words, roomy(alloc)?, |words, out, line| {
        run_find(alloc, words, &mut files, &mut ByStdSort, out, line)
    })
}

// Two units: the first has m, n and once more n, the second n. The first is loaded from 0x1010 of the file.
fn named(alloc: Global) -> Result<Vec<u8>, AllocError> {
    let mut entries = DebugInfo::new(alloc, ByteOrder::Little, 4);
    entries.open_unit(0x10, 0x30)?;
    entries.function("m", 0x10, 0x10)?;
    entries.function("n", 0x20, 8)?;
    entries.function("n", 0x30, 0x10)?;
    entries.close_unit()?;
    entries.open_unit(0x50, 0x10)?;
    entries.function("n", 0x50, 0x10)?;
    entries.close_unit()?;
    let abbreviations = entries.abbreviations()?;
    Image::elf64(alloc)
        .section(".debug_info", 1, entries.info())?
        .section(".debug_abbrev", 1, &abbreviations)?
        .segment(0x10, 0x1010, 0x30)?
        .bytes()
}

#[test]
fn names_are_told_in_turn_with_the_first_function_of_each_unit(
    rt: HostRuntime,
) -> Result<(), Fail> {
    let mut checks = Checks::new();
    let alloc = rt.alloc();
    let image = named(alloc).expect(&rt, "refused");
    let words = ["a.elf", "n", "m", "o"];
    let ended = run_roomy(alloc, image, &words).expect(&rt, "refused");
    let text = b"0000000000000020 8 n\n\
        0000000000000050 16 n\n\
        0000000000000010 16 m\n\
        ?? o\n";
    checks.holds(ended.is(0, text, b""));
    checks.result()
}

#[test]
fn without_a_name_all_functions_are_told_with_their_places(rt: HostRuntime) -> Result<(), Fail> {
    let mut checks = Checks::new();
    let alloc = rt.alloc();
    let image = named(alloc).expect(&rt, "refused");
    let ended = run_roomy(alloc, image, &["--file-offset", "a.elf"]).expect(&rt, "refused");
    let text = b"0000000000000010 16 0000000000001010 m\n\
        0000000000000020 8 0000000000001020 n\n\
        0000000000000030 16 0000000000001030 n\n\
        0000000000000050 16 ? n\n";
    checks.holds(ended.is(0, text, b""));
    checks.result()
}

#[test]
fn no_word_is_told_the_usage(rt: HostRuntime) -> Result<(), Fail> {
    let mut checks = Checks::new();
    let alloc = rt.alloc();
    let image = named(alloc).expect(&rt, "refused");
    let ended = run_roomy(alloc, image, &[]).expect(&rt, "refused");
    let line = b"usage: [--file-offset] IMAGE [NAME..]\n";
    checks.holds(ended.is(2, b"", line));
    checks.result()
}
