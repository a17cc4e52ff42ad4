//! Files that are refused.
use super::shown::{Looked, NONE, look_up, nested_files, source};
use blz_checks::Checks;
use blz_error::ErrorKind;
use blz_images::with_section;
use blz_inspector::Inspector;
use blz_links::MemoryFiles;
use std::alloc::{AllocError, Global};
use std::test::Fail;

fn absent(alloc: Global) -> Result<Looked, AllocError> {
    let mut files = nested_files(alloc)?;
    let absent = source(alloc, "b.elf", false)?;
    let mut inspector = Inspector::new(alloc);
    Ok(look_up(alloc, &mut inspector, &mut files, &absent, ("A", "Z")))
}

fn with_broken_units(alloc: Global) -> Result<MemoryFiles, AllocError> {
    let mut files = MemoryFiles::new(alloc);
    files.put("a.elf", with_section(alloc, ".debug_info", b"unit")?)?;
    Ok(files)
}

// what is found where the debug information is broken, with it or by symbols alone
fn broken(alloc: Global, debug_syms: bool) -> Result<Looked, AllocError> {
    let mut files = with_broken_units(alloc)?;
    let asked = source(alloc, "a.elf", debug_syms)?;
    let mut inspector = Inspector::new(alloc);
    Ok(look_up(alloc, &mut inspector, &mut files, &asked, ("A", "Z")))
}

#[test]
fn a_path_that_names_nothing_is_not_found(rt: HostRuntime) -> Result<(), Fail> {
    let mut checks = Checks::new();
    checks.gives(absent(rt.alloc()), Err(ErrorKind::NotFound));
    checks.result()
}

#[test]
fn broken_debug_information_is_met_where_it_is_asked(rt: HostRuntime) -> Result<(), Fail> {
    let mut checks = Checks::new();
    let alloc = rt.alloc();
    checks.gives(broken(alloc, true), Err(ErrorKind::InvalidDwarf));
    checks.gives(broken(alloc, false), Ok([NONE, NONE]));
    checks.result()
}
