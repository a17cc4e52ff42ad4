//! Files and sinks of the system, and a sink in memory.
use blz_checks::Checks;
use blz_resolver::files::{Files, FilesFault};
use blz_resolver::outside::{MemorySink, RealFiles, RealSink, Sink};
use std::fs;
use std::os::unix::fs::symlink;
use std::test::Fail;

#[test]
fn a_memory_sink_has_the_bytes_that_it_took(rt: HostRuntime) -> Result<(), Fail> {
    let mut checks = Checks::new();
    let mut sink = MemorySink::with_room(rt.alloc(), 5, 3).expect(&rt, "refused");
    checks.same(sink.put(b"abcd"), Ok(3));
    checks.same(sink.put(b"defg"), Ok(2));
    checks.same(sink.bytes(), b"abcde".as_slice());
    checks.result()
}

#[test]
fn real_files_pass_the_system_on(rt: HostRuntime) -> Result<(), Fail> {
    let mut checks = Checks::new();
    let alloc = rt.alloc();
    let mut files = RealFiles::new(&rt);
    checks.holds(
        files
            .read(alloc, "/dev/null")
            .expect(&rt, "refused")
            .is_empty(),
    );
    checks.holds(files.exists("/dev/null").expect(&rt, "refused"));
    checks.holds(
        files
            .canonical(alloc, "/dev/null")
            .expect(&rt, "refused")
            .is_some(),
    );
    checks.same(files.stamp("/dev/null").expect(&rt, "refused").size, 0);
    checks.holds(matches!(files.read(alloc, "no such file"), Err(FilesFault::NotFound)));
    checks.result()
}

#[test]
fn a_path_that_no_file_can_have_names_nothing(rt: HostRuntime) -> Result<(), Fail> {
    let mut checks = Checks::new();
    let alloc = rt.alloc();
    let mut files = RealFiles::new(&rt);
    let name = "n".repeat(alloc, 256).expect(&rt, "refused");
    checks.holds(matches!(files.read(alloc, &name), Err(FilesFault::NotFound)));
    checks.holds(matches!(files.stamp(&name), Err(FilesFault::NotFound)));
    checks.same(files.exists(&name), Ok(false));
    checks.result()
}

#[test]
fn nothing_stands_below_a_file_or_a_loop_of_links(rt: HostRuntime) -> Result<(), Fail> {
    let mut checks = Checks::new();
    let alloc = rt.alloc();
    let mut files = RealFiles::new(&rt);
    checks.same(files.exists("/dev/null/debug"), Ok(false));
    checks.holds(matches!(
        files.read(alloc, "/dev/null/debug"),
        Err(FilesFault::Failed)
    ));
    let link = "a link to itself";
    symlink(&rt, link, link).expect(&rt, "refused");
    let below = files.exists("a link to itself/debug");
    fs::remove_file(&rt, link).expect(&rt, "refused");
    checks.same(below, Ok(false));
    checks.result()
}

#[test]
fn a_real_sink_writes_on(rt: HostRuntime) -> Result<(), Fail> {
    let mut checks = Checks::new();
    let mut bytes = Vec::new(rt.alloc());
    let mut sink = RealSink::new(&mut bytes);
    checks.same(sink.put(b"abc"), Ok(3));
    checks.same(bytes.as_slice(), b"abc".as_slice());
    checks.result()
}
