use blz_checks::Checks;
use blz_error::{Cause, Error, ErrorExt, ErrorKind, IntoCowStr, IntoError, Mismatch, Result, Str};
use std::alloc::{AllocError, Global};
use std::test::Fail;

// invalid data under two contexts
fn chain(alloc: Global) -> Error {
    Error::new(ErrorKind::InvalidData, Str::fixed("some invalid data"))
        .context(alloc, "inner context")
        .with_context(alloc, || "outer context")
}

#[test]
fn prints_a_chain_in_three_ways(rt: HostRuntime) -> std::result::Result<(), Fail> {
    let mut checks = Checks::new();
    let alloc = rt.alloc();
    let error = chain(alloc);
    let mut text = String::new(alloc);
    error.plain_text(&mut text).expect(&rt, "refused");
    checks.same(text.as_str(), "outer context");

    text.clear();
    error.full_text(&mut text).expect(&rt, "refused");
    checks.same(
        text.as_str(),
        "outer context: inner context: some invalid data",
    );

    text.clear();
    error.report_text(&mut text).expect(&rt, "refused");
    let report = "Error: outer context\n\nCaused by:\n    inner context\n    some invalid data";
    checks.same(text.as_str(), report);
    checks.same(
        format!(in alloc; "{error}").expect(&rt, "refused").as_str(),
        "outer context",
    );
    checks.same(
        format!(in alloc; "{error:?}")
            .expect(&rt, "refused")
            .as_str(),
        report,
    );
    checks.result()
}

#[test]
fn prints_an_error_of_one_text(rt: HostRuntime) -> std::result::Result<(), Fail> {
    let mut checks = Checks::new();
    let alloc = rt.alloc();
    let error = Error::from(AllocError);
    let mut text = String::new(alloc);
    error.full_text(&mut text).expect(&rt, "refused");
    error.report_text(&mut text).expect(&rt, "refused");
    checks.same(text.as_str(), "out of memoryError: out of memory");
    checks.holds(error.source().is_none());
    checks.result()
}

#[test]
fn walks_the_causes(rt: HostRuntime) -> std::result::Result<(), Fail> {
    let mut checks = Checks::new();
    let error = chain(rt.alloc());
    let inner = error.source().expect(&rt, "no cause");
    checks.same(inner.text(), "inner context");
    let innermost = inner.source().expect(&rt, "no second cause");
    checks.same(innermost.text(), "some invalid data");
    checks.holds(innermost.source().is_none());
    checks.result()
}

#[test]
fn keeps_kind_and_mismatch_under_a_context(rt: HostRuntime) -> std::result::Result<(), Fail> {
    let mut checks = Checks::new();
    let alloc = rt.alloc();
    let mismatch = Mismatch::new(
        [1, 2].to_vec(alloc).expect(&rt, "refused"),
        [3].to_vec(alloc).expect(&rt, "refused"),
    );
    let failed: Result<u8> = Err(Error::with_mismatch(
        ErrorKind::InvalidData,
        Str::fixed("checksum"),
        mismatch,
    ));
    let text = String::from_str(alloc, "opening").expect(&rt, "refused");
    let error = failed.context(alloc, text).err().expect(&rt, "no error");
    checks.same(error.kind(), ErrorKind::InvalidData);
    let mismatch = error.mismatch().expect(&rt, "no mismatch");
    checks.same(mismatch.actual(), [1, 2].as_slice());
    checks.same(mismatch.expected(), [3].as_slice());
    checks.result()
}

#[test]
fn a_value_stays(rt: HostRuntime) -> std::result::Result<(), Fail> {
    let mut checks = Checks::new();
    let alloc = rt.alloc();
    let good: Result<u8> = Ok(5);
    let good = good
        .context(alloc, "first")
        .with_context(alloc, || "second");
    checks.same(good.ok().expect(&rt, "an error"), 5);
    let some = Some(7u8).ok_or_not_found(|| "nothing");
    checks.same(some.ok().expect(&rt, "an error"), 7);
    checks.result()
}

#[test]
fn makes_errors_of_what_is_not_there(rt: HostRuntime) -> std::result::Result<(), Fail> {
    let mut checks = Checks::new();
    let alloc = rt.alloc();
    let none: Option<u8> = None;
    let errors = [
        (
            none.ok_or_error(ErrorKind::Other, || "lost"),
            ErrorKind::Other,
        ),
        (none.ok_or_invalid_data(|| "lost"), ErrorKind::InvalidData),
        (none.ok_or_invalid_input(|| "lost"), ErrorKind::InvalidInput),
        (none.ok_or_not_found(|| "lost"), ErrorKind::NotFound),
        (
            none.ok_or_unexpected_eof(|| "lost"),
            ErrorKind::UnexpectedEof,
        ),
    ];
    for (answer, kind) in errors {
        let error = answer.err().expect(&rt, "a value");
        checks.same(error.kind(), kind);
        checks.same(
            format!(in alloc; "{error}").expect(&rt, "refused").as_str(),
            "lost",
        );
    }
    checks.result()
}

#[test]
fn names_the_kinds(rt: HostRuntime) -> std::result::Result<(), Fail> {
    let mut checks = Checks::new();
    let texts = [
        (ErrorKind::NotFound, "entity not found"),
        (ErrorKind::PermissionDenied, "permission denied"),
        (ErrorKind::AlreadyExists, "entity already exists"),
        (ErrorKind::WouldBlock, "operation would block"),
        (ErrorKind::InvalidInput, "invalid input parameter"),
        (ErrorKind::InvalidData, "invalid data"),
        (ErrorKind::InvalidDwarf, "DWARF data invalid"),
        (ErrorKind::TimedOut, "timed out"),
        (ErrorKind::WriteZero, "write zero"),
        (ErrorKind::Unsupported, "unsupported"),
        (ErrorKind::UnexpectedEof, "unexpected end of file"),
        (ErrorKind::OutOfMemory, "out of memory"),
        (ErrorKind::Other, "other error"),
    ];
    for (kind, text) in texts {
        checks.same(
            format!(in rt.alloc(); "{kind}")
                .expect(&rt, "refused")
                .as_str(),
            text,
        );
    }
    checks.same(ErrorKind::WriteZero.as_bytes(), b"write zero\0".as_slice());
    checks.result()
}
