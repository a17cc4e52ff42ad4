//! Files that are asked again.
use super::shown::{Looked, NONE, look_up, nested_files, one_at, source};
use blz_checks::Checks;
use blz_images::Image;
use blz_inspector::{Inspector, Source};
use blz_links::{Files, FilesFault, MemoryFiles};
use std::alloc::{AllocError, Global};
use std::test::Fail;

/// What two calls on the files gave.
type Calls = [Result<bool, FilesFault>; 2];

// what A is, twice, and how two further calls on the files end
fn twice(alloc: Global, files: &mut MemoryFiles, symbols: &Source) -> ([Looked; 2], Calls) {
    let mut inspector = Inspector::new(alloc);
    let first = look_up(alloc, &mut inspector, files, symbols, ("A", "Z"));
    let second = look_up(alloc, &mut inspector, files, symbols, ("A", "Z"));
    let third = files.exists("a.elf");
    let fourth = files.exists("a.elf");
    ([first, second], [third, fourth])
}

// where the fifth call on the files fails
fn asked_twice(alloc: Global) -> Result<([Looked; 2], Calls), AllocError> {
    let mut files = nested_files(alloc)?;
    files.fail_at(5, false)?;
    let symbols = source(alloc, "a.elf", false)?;
    Ok(twice(alloc, &mut files, &symbols))
}

#[test]
fn a_file_that_stays_as_it_was_is_read_once(rt: HostRuntime) -> Result<(), Fail> {
    let mut checks = Checks::new();
    let found = Ok([one_at(0, 100), NONE]);
    // the first look takes two calls, for the stamp and the bytes, and the second one, for the stamp
    checks.gives(
        asked_twice(rt.alloc()),
        ([found, found], [Ok(true), Err(FilesFault::Failed)]),
    );
    checks.result()
}

fn changed(alloc: Global) -> Result<Vec<u8>, AllocError> {
    Image::elf64(alloc).symbol("Z", 0x40, 8)?.bytes()
}

// what is found before and after the file is another one
fn before_and_after(alloc: Global) -> Result<[Looked; 2], AllocError> {
    let mut files = nested_files(alloc)?;
    let symbols = source(alloc, "a.elf", false)?;
    let mut inspector = Inspector::new(alloc);
    let before = look_up(alloc, &mut inspector, &mut files, &symbols, ("A", "Z"));
    files.put("a.elf", changed(alloc)?)?;
    let after = look_up(alloc, &mut inspector, &mut files, &symbols, ("A", "Z"));
    Ok([before, after])
}

#[test]
fn a_file_that_changed_is_opened_anew(rt: HostRuntime) -> Result<(), Fail> {
    let mut checks = Checks::new();
    let before = Ok([one_at(0, 100), NONE]);
    let after = Ok([NONE, one_at(0x40, 8)]);
    checks.gives(before_and_after(rt.alloc()), [before, after]);
    checks.result()
}
