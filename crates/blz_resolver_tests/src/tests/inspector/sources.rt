//! A file with its debug information and without.
use super::shown::{Looked, NONE, look_up, one_at, source};
use blz_checks::Checks;
use blz_images::{ByteOrder, realistic_walk};
use blz_inspector::{Inspector, Source};
use blz_links::MemoryFiles;
use std::alloc::{AllocError, Global};
use std::test::Fail;

fn with_walk(alloc: Global) -> Result<MemoryFiles, AllocError> {
    let mut files = MemoryFiles::new(alloc);
    files.put("prog", realistic_walk(alloc, ByteOrder::Little)?)?;
    Ok(files)
}

// what is found with debug information, with it again, and by symbols alone
fn found(
    alloc: Global,
    files: &mut MemoryFiles,
    functions: &Source,
    symbols: &Source,
) -> [Looked; 3] {
    let mut inspector = Inspector::new(alloc);
    let first = look_up(alloc, &mut inspector, files, functions, ("main", "_start"));
    let again = look_up(alloc, &mut inspector, files, functions, ("main", "Z"));
    let other = look_up(alloc, &mut inspector, files, symbols, ("_start", "main"));
    [first, again, other]
}

fn of_both(alloc: Global) -> Result<[Looked; 3], AllocError> {
    let mut files = with_walk(alloc)?;
    let functions = source(alloc, "prog", true)?;
    let symbols = source(alloc, "prog", false)?;
    Ok(found(alloc, &mut files, &functions, &symbols))
}

#[test]
fn each_of_both_is_kept_for_itself(rt: HostRuntime) -> Result<(), Fail> {
    let mut checks = Checks::new();
    let main = one_at(0x1140, 0x40);
    let start = one_at(0x1100, 34);
    checks.gives(
        of_both(rt.alloc()),
        [Ok([main, start]), Ok([main, NONE]), Ok([start, NONE])],
    );
    checks.result()
}
