//! How a run ends: its status, its text and its line.
use blz_checks::Checks;
use blz_error::ErrorKind;
use blz_program::{LineFault, Outcome, Program, finish, read_file};
use blz_resolver::files::MemoryFiles;
use blz_resolver::outside::MemorySink;
use std::alloc::{AllocError, Global};
use std::test::Fail;

const PROGRAM: Program = Program {
    name: "prog",
    usage: "prog IMAGE",
    bad_line: "bad stack",
};

// The status of a run with this outcome in place of a text, and the line that it writes.
fn refused(alloc: Global, outcome: Outcome) -> Result<(u8, MemorySink), AllocError> {
    let mut out = MemorySink::with_room(alloc, 100, 100)?;
    let mut err = MemorySink::with_room(alloc, 100, 3)?;
    let status = finish(&PROGRAM, Err(outcome), &mut out, &mut err);
    Ok((status, err))
}

#[test]
fn an_outcome_has_its_status_and_line(rt: HostRuntime) -> Result<(), Fail> {
    let mut checks = Checks::new();
    let alloc = rt.alloc();
    let outcomes = [
        (
            Outcome::Refused(ErrorKind::InvalidData),
            1,
            "prog: invalid data\n",
        ),
        (Outcome::Usage, 2, "usage: prog IMAGE\n"),
        (Outcome::OutOfMemory, 4, "prog: out of memory\n"),
        (
            Outcome::BadLine(12, LineFault::BadForm),
            5,
            "prog: line 12: bad stack\n",
        ),
        (
            Outcome::BadLine(2, LineFault::TooLarge),
            5,
            "prog: line 2: total too large\n",
        ),
    ];
    for (outcome, status, line) in outcomes {
        let (ended, err) = refused(alloc, outcome).expect(&rt, "refused");
        checks.same(ended, status);
        checks.same(err.bytes(), line.as_bytes());
    }
    checks.result()
}

#[test]
fn a_text_is_written_whole_or_the_sink_has_failed(rt: HostRuntime) -> Result<(), Fail> {
    let mut checks = Checks::new();
    let alloc = rt.alloc();
    let mut out = MemorySink::with_room(alloc, 7, 2).expect(&rt, "refused");
    let mut err = MemorySink::with_room(alloc, 100, 100).expect(&rt, "refused");
    checks.same(
        finish(
            &PROGRAM,
            Ok(Vec::from_slice(alloc, b"text\n").expect(&rt, "refused")),
            &mut out,
            &mut err,
        ),
        0,
    );
    checks.same(err.bytes(), b"".as_slice());
    checks.same(
        finish(
            &PROGRAM,
            Ok(Vec::from_slice(alloc, b"more\n").expect(&rt, "refused")),
            &mut out,
            &mut err,
        ),
        3,
    );
    checks.same(out.bytes(), b"text\nmo".as_slice());
    checks.same(err.bytes(), b"prog: write failed\n".as_slice());
    checks.result()
}

#[test]
fn a_file_is_read_or_its_fault_is_told(rt: HostRuntime) -> Result<(), Fail> {
    let mut checks = Checks::new();
    let alloc = rt.alloc();
    let mut files = MemoryFiles::new(alloc);
    files
        .put("a", Vec::from_slice(alloc, b"bytes").expect(&rt, "refused"))
        .expect(&rt, "refused");
    files.fail_at(3, true).expect(&rt, "refused");
    checks.same(
        read_file(alloc, &mut files, "a")
            .expect(&rt, "refused")
            .as_slice(),
        b"bytes".as_slice(),
    );
    match read_file(alloc, &mut files, "b") {
        Ok(_) => checks.holds(false),
        Err(error) => checks.same(error.kind(), ErrorKind::NotFound),
    }
    match read_file(alloc, &mut files, "a") {
        Ok(_) => checks.holds(false),
        Err(error) => checks.same(error.kind(), ErrorKind::PermissionDenied),
    }
    checks.result()
}
