//! Whole runs over files and sinks in memory.

use crate::one_line::one_line;
use blz_bytes::ByStdSort;
use blz_checks::Checks;
use blz_cover::run_cover;
use blz_images::ByteOrder;
use blz_resolver::files::MemoryFiles;
use blz_resolver::outside::MemorySink;
use blz_runs::{Ran, roomy, run_with};
use std::alloc::{AllocError, Global};
use std::test::Fail;

const HITS: &[u8] = b"1004 3\n1016 2\n1018 5\n2000 1\n";

const COUNTS: &[u8] = b"/p/a.c:2 5\nrest 6\ntotal 11\n";

fn run_to(alloc: Global, files: &mut MemoryFiles, words: &[&str], out: MemorySink) -> Ran {
    run_with(alloc, words, out, |words, out, line| {
        run_cover(alloc, words, files, &mut ByStdSort, out, line)
    })
}

// A run whose sink has room.
fn run_roomy(alloc: Global, files: &mut MemoryFiles, words: &[&str]) -> Ran {
    run_to(alloc, files, words, roomy(alloc)?)
}

// The image `a.elf` with a file of this number at its second row, and these hits.
fn holding(alloc: Global, second_file: u64, hits: &[u8]) -> Result<MemoryFiles, AllocError> {
    let mut files = MemoryFiles::new(alloc);
    files.put("a.elf", one_line(alloc, ByteOrder::Little, second_file)?)?;
    files.put("hits", Vec::from_slice(alloc, hits)?)?;
    Ok(files)
}

// A run over these hits.
fn run_over(alloc: Global, hits: &[u8], out: MemorySink) -> Ran {
    let mut files = holding(alloc, 1, hits)?;
    run_to(alloc, &mut files, &["a.elf", "hits"], out)
}

#[test]
fn counts_are_printed_by_line(rt: HostRuntime) -> Result<(), Fail> {
    let mut checks = Checks::new();
    let alloc = rt.alloc();
    let texts: [(&[u8], &[u8]); 3] = [
        (HITS, COUNTS),
        (b"", b"rest 0\ntotal 0\n"),
        // a last line may lack its line feed
        (b"0x1004 3", b"/p/a.c:2 3\nrest 0\ntotal 3\n"),
    ];
    for (hits, counts) in texts {
        let out = MemorySink::with_room(alloc, 200, 9).expect(&rt, "refused");
        checks.holds(
            run_over(alloc, hits, out)
                .expect(&rt, "refused")
                .is(0, counts, b""),
        );
    }
    checks.result()
}

#[test]
fn a_line_of_another_form_is_refused_with_its_number(rt: HostRuntime) -> Result<(), Fail> {
    let mut checks = Checks::new();
    let alloc = rt.alloc();
    let lines: [&[u8]; 12] = [
        b"1016",
        b"",
        b"1004 0",
        b"1004 03",
        b"1004  3",
        b" 1004 3",
        b"1004\t3",
        b"1004 3\r",
        b"1004 18446744073709551616",
        b"00000000000001004 3",
        b"0x 3",
        b"100g 3",
    ];
    for line in lines {
        let mut hits = Vec::new(alloc);
        hits.extend_from_slice(b"1004 3\n").expect(&rt, "refused");
        hits.extend_from_slice(line).expect(&rt, "refused");
        hits.extend_from_slice(b"\n1016 2\n").expect(&rt, "refused");
        let ended = run_over(alloc, &hits, roomy(alloc).expect(&rt, "refused")).expect(
            &rt, "refused",
        );
        checks.holds(ended.is(5, b"", b"blz_cover: line 2: bad hit\n"));
    }
    checks.result()
}

#[test]
fn a_total_that_is_too_large_is_refused_at_its_line(rt: HostRuntime) -> Result<(), Fail> {
    let mut checks = Checks::new();
    let hits = b"1004 18446744073709551615\n2000 1\nx\n";
    let ended = run_over(rt.alloc(), hits, roomy(rt.alloc()).expect(&rt, "refused")).expect(
        &rt, "refused",
    );
    checks.holds(ended.is(5, b"", b"blz_cover: line 2: total too large\n"));
    checks.result()
}

#[test]
fn the_first_line_that_fails_decides(rt: HostRuntime) -> Result<(), Fail> {
    let mut checks = Checks::new();
    let alloc = rt.alloc();
    let texts: [(&[u8], u8, &[u8]); 2] = [
        (
            b"1004 1\n1016 1\nx\n",
            1,
            b"blz_cover: DWARF data invalid\n",
        ),
        (b"1004 1\nx\n1016 1\n", 5, b"blz_cover: line 2: bad hit\n"),
    ];
    for (hits, status, line) in texts {
        // the address 0x1016 has a mark
        let mut files = holding(alloc, 9, hits).expect(&rt, "refused");
        let ended = run_roomy(alloc, &mut files, &["a.elf", "hits"]).expect(&rt, "refused");
        checks.holds(ended.is(status, b"", line));
    }
    checks.result()
}

#[test]
fn other_words_are_told_the_usage(rt: HostRuntime) -> Result<(), Fail> {
    let mut checks = Checks::new();
    let alloc = rt.alloc();
    let mut files = holding(alloc, 1, HITS).expect(&rt, "refused");
    let words: [&[&str]; 3] = [&[], &["a.elf"], &["a.elf", "hits", "hits"]];
    for given in words {
        let ended = run_roomy(alloc, &mut files, given).expect(&rt, "refused");
        checks.holds(ended.is(2, b"", b"usage: IMAGE HITS\n"));
    }
    checks.result()
}

#[test]
fn a_file_that_is_refused_is_told_by_its_kind(rt: HostRuntime) -> Result<(), Fail> {
    let mut checks = Checks::new();
    let alloc = rt.alloc();
    let mut files = holding(alloc, 1, HITS).expect(&rt, "refused");
    let runs: [(&[&str], &[u8]); 3] = [
        (&["none", "hits"], b"blz_cover: entity not found\n"),
        (&["a.elf", "none"], b"blz_cover: entity not found\n"),
        (&["hits", "hits"], b"blz_cover: invalid data\n"),
    ];
    for (words, line) in runs {
        let ended = run_roomy(alloc, &mut files, words).expect(&rt, "refused");
        checks.holds(ended.is(1, b"", line));
    }
    checks.result()
}

#[test]
fn a_sink_that_fails_has_a_front_of_the_text(rt: HostRuntime) -> Result<(), Fail> {
    let mut checks = Checks::new();
    let out = MemorySink::with_room(rt.alloc(), 5, 200).expect(&rt, "refused");
    let ended = run_over(rt.alloc(), HITS, out).expect(&rt, "refused");
    checks.holds(ended.is(3, b"/p/a.", b"blz_cover: write failed\n"));
    checks.result()
}
