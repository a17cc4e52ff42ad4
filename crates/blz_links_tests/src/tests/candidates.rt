//! Candidates for the file of a link.
use blz_checks::Checks;
use blz_links::DebugFileIter;
use std::alloc::{AllocError, Global};
use std::test::Fail;

// all candidates, each on a line
fn lines(alloc: Global, candidates: DebugFileIter<'_>) -> Result<String, AllocError> {
    let mut text = String::new(alloc);
    for candidate in candidates {
        text.push_str(candidate?.as_str())?;
        text.push_str("\n")?;
    }
    Ok(text)
}

// two directories
fn dirs(alloc: Global, first: &str, second: &str) -> Result<Vec<String>, AllocError> {
    let mut dirs = Vec::new(alloc);
    for dir in [first, second] {
        dirs.push(String::from_str(alloc, dir)?)?;
    }
    Ok(dirs)
}

#[test]
fn the_linkers_directory_is_tried_below_the_debug_directory(rt: HostRuntime) -> Result<(), Fail> {
    let mut checks = Checks::new();
    let alloc = rt.alloc();
    let dirs = vec![in alloc;
        String::from_str(alloc, "/usr/lib/debug/").expect(&rt, "refused"),
    ].expect(&rt, "refused");
    let id = [0xbe, 0xef, 0xbe, 0xef];
    let candidates = DebugFileIter::new(
        alloc,
        dirs.as_slice(),
        Some("/usr/lib64/libc.so"),
        "libc.so.debug",
        Some(&id),
    );
    let expected = "/usr/lib/debug/libc.so.debug\n\
        /usr/lib64/libc.so.debug\n\
        /usr/lib/debug/usr/lib64/libc.so.debug\n\
        /usr/lib/debug/usr/libc.so.debug\n";
    checks.same(
        lines(alloc, candidates).expect(&rt, "refused").as_str(),
        expected,
    );
    checks.result()
}

#[test]
fn a_build_id_of_eight_bytes_is_looked_for_first(rt: HostRuntime) -> Result<(), Fail> {
    let mut checks = Checks::new();
    let alloc = rt.alloc();
    let dirs = dirs(alloc, "/opt/debug", "/srv/dbg/").expect(&rt, "refused");
    let id = [0xbe, 0xef, 0xbe, 0xef, 0xfe, 0xed, 0xba, 0xbe];
    let candidates = DebugFileIter::new(alloc, dirs.as_slice(), None, "libc.so.debug", Some(&id));
    let expected = "/opt/debug/.build-id/be/efbeeffeedbabe.debug\n\
        /srv/dbg/.build-id/be/efbeeffeedbabe.debug\n\
        /opt/debug/libc.so.debug\n\
        /srv/dbg/libc.so.debug\n";
    checks.same(
        lines(alloc, candidates).expect(&rt, "refused").as_str(),
        expected,
    );
    checks.result()
}

#[test]
fn the_linker_itself_is_left_out(rt: HostRuntime) -> Result<(), Fail> {
    let mut checks = Checks::new();
    let alloc = rt.alloc();
    let candidates = DebugFileIter::new(alloc, &[], Some("/usr/lib64/libc.so"), "libc.so", None);
    checks.same(lines(alloc, candidates).expect(&rt, "refused").as_str(), "");
    checks.result()
}
