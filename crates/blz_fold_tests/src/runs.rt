//! Whole runs over files and sinks in memory.

use blz_bytes::ByStdSort;
use blz_checks::Checks;
use blz_fold::run_fold;
use blz_images::realistic_walk;
use blz_model::ByteOrder;
use blz_resolver::files::MemoryFiles;
use blz_resolver::outside::MemorySink;
use blz_runs::{Ran, roomy, run_with};
use std::alloc::{AllocError, Global};
use std::test::Fail;

const STACKS: &[u8] = b"3 1140;1150\n2 1140;1200\n4 1140;1150\n";

const LINES: &[u8] = b"main;main;square 7\nmain;_ZN3lib3run17h0123456789abcdefE 2\n";

const NODES: &[u8] =
    b"9 0 main\n7 0 main;main\n7 7 main;main;square\n2 2 main;_ZN3lib3run17h0123456789abcdefE\n";

fn run_to(alloc: Global, files: &mut MemoryFiles, words: &[&str], out: MemorySink) -> Ran {
    run_with(alloc, words, out, |words, out, line| {
        run_fold(alloc, words, files, &mut ByStdSort, out, line)
    })
}

// A run whose sink has room.
fn run_roomy(alloc: Global, files: &mut MemoryFiles, words: &[&str]) -> Ran {
    run_to(alloc, files, words, roomy(alloc)?)
}

// The image `prog`, and these stacks.
fn holding(alloc: Global, order: ByteOrder, stacks: &[u8]) -> Result<MemoryFiles, AllocError> {
    let mut files = MemoryFiles::new(alloc);
    files.put("prog", realistic_walk(alloc, order)?)?;
    files.put("stacks", Vec::from_slice(alloc, stacks)?)?;
    Ok(files)
}

// A run over these stacks.
fn run_over(alloc: Global, stacks: &[u8], out: MemorySink) -> Ran {
    let mut files = holding(alloc, ByteOrder::Little, stacks)?;
    run_to(alloc, &mut files, &["prog", "stacks"], out)
}

#[test]
fn lines_and_nodes_are_printed(rt: HostRuntime) -> Result<(), Fail> {
    let mut checks = Checks::new();
    let alloc = rt.alloc();
    for order in [ByteOrder::Little, ByteOrder::Big] {
        let mut files = holding(alloc, order, STACKS).expect(&rt, "refused");
        let runs: [(&[&str], &[u8]); 2] = [
            (&["prog", "stacks"], LINES),
            (&["--nodes", "prog", "stacks"], NODES),
        ];
        for (words, text) in runs {
            let out = MemorySink::with_room(alloc, 200, 9).expect(&rt, "refused");
            checks.holds(
                run_to(alloc, &mut files, words, out)
                    .expect(&rt, "refused")
                    .is(0, text, b""),
            );
        }
    }
    checks.result()
}

#[test]
fn each_list_of_stacks_has_its_lines_or_its_refusal(rt: HostRuntime) -> Result<(), Fail> {
    let mut checks = Checks::new();
    let alloc = rt.alloc();
    let runs: [(&[u8], u8, &[u8], &[u8]); 5] = [
        // no stacks, and addresses that have no name
        (b"", 0, b"", b""),
        (b"1 1300;1100", 0, b"??;_start 1\n", b""),
        // refused stacks have the number of their line
        (b"1 10\n0 10\n", 5, b"", b"blz_fold: line 2: bad stack\n"),
        (
            b"18446744073709551615 10\n1 10\n",
            5,
            b"",
            b"blz_fold: line 2: total too large\n",
        ),
        (b"\n", 5, b"", b"blz_fold: line 1: bad stack\n"),
    ];
    for (stacks, status, text, line) in runs {
        checks.holds(
            run_over(alloc, stacks, roomy(alloc).expect(&rt, "refused"))
                .expect(&rt, "refused")
                .is(status, text, line),
        );
    }
    checks.result()
}

#[test]
fn the_first_refusal_decides(rt: HostRuntime) -> Result<(), Fail> {
    let mut checks = Checks::new();
    let alloc = rt.alloc();
    let mut files = holding(alloc, ByteOrder::Little, b"x").expect(&rt, "refused");
    files
        .put(
            "short",
            Vec::from_slice(alloc, b"short").expect(&rt, "refused"),
        )
        .expect(&rt, "refused");
    let runs: [(&[&str], u8, &[u8]); 4] = [
        (&["none", "none"], 1, b"blz_fold: entity not found\n"),
        (&["prog", "none"], 1, b"blz_fold: entity not found\n"),
        (&["short", "stacks"], 5, b"blz_fold: line 1: bad stack\n"),
        (&["short", "short"], 5, b"blz_fold: line 1: bad stack\n"),
    ];
    for (words, status, line) in runs {
        checks.holds(
            run_roomy(alloc, &mut files, words)
                .expect(&rt, "refused")
                .is(status, b"", line),
        );
    }
    checks.result()
}

#[test]
fn a_read_that_fails_is_told_by_its_cause(rt: HostRuntime) -> Result<(), Fail> {
    let mut checks = Checks::new();
    let alloc = rt.alloc();
    let mut files = holding(alloc, ByteOrder::Little, STACKS).expect(&rt, "refused");
    files.fail_at(1, true).expect(&rt, "refused");
    files.fail_at(3, false).expect(&rt, "refused");
    for line in [
        b"blz_fold: permission denied\n".as_slice(),
        b"blz_fold: other error\n".as_slice(),
    ] {
        let ended = run_roomy(alloc, &mut files, &["prog", "stacks"]).expect(&rt, "refused");
        checks.holds(ended.is(1, b"", line));
    }
    checks.result()
}

#[test]
fn a_sink_that_fails_has_a_front_of_the_text(rt: HostRuntime) -> Result<(), Fail> {
    let mut checks = Checks::new();
    let out = MemorySink::with_room(rt.alloc(), 10, 100).expect(&rt, "refused");
    let ended = run_over(rt.alloc(), STACKS, out).expect(&rt, "refused");
    checks.holds(ended.is(3, b"main;main;", b"blz_fold: write failed\n"));
    checks.result()
}

#[test]
fn other_words_are_told_the_usage(rt: HostRuntime) -> Result<(), Fail> {
    let mut checks = Checks::new();
    let alloc = rt.alloc();
    let mut files = holding(alloc, ByteOrder::Little, STACKS).expect(&rt, "refused");
    let words: [&[&str]; 4] = [
        &[],
        &["prog"],
        &["prog", "stacks", "--nodes"],
        &["--nodes", "--nodes", "prog", "stacks"],
    ];
    for given in words {
        let ended = run_roomy(alloc, &mut files, given).expect(&rt, "refused");
        checks.holds(ended.is(2, b"", b"usage: [--nodes] IMAGE STACKS\n"));
    }
    // two words are paths, whatever they begin with
    let paths = run_roomy(alloc, &mut files, &["--nodes", "stacks"]).expect(&rt, "refused");
    checks.same(paths.status, 1);
    checks.result()
}
