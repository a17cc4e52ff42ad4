//! Files and sources as they are printed.
use blz_checks::Checks;
use blz_inspector::{Elf, Source};
use std::alloc::{AllocError, Global};
use std::test::Fail;

fn elf_is_printed(alloc: Global, path: &str, wanted: &str) -> Result<bool, AllocError> {
    let elf = Elf::new(String::from_str(alloc, path)?);
    let text = format!(in alloc; "{elf:?}")?;
    Ok(text.as_str() == wanted)
}

fn source_is_printed(alloc: Global, path: &str, wanted: &str) -> Result<bool, AllocError> {
    let source = Source::from(Elf::new(String::from_str(alloc, path)?));
    let text = format!(in alloc; "{source:?}")?;
    Ok(text.as_str() == wanted && source.path() == Some(path))
}

#[test]
fn a_file_and_its_source_are_printed_with_its_path(rt: HostRuntime) -> Result<(), Fail> {
    let mut checks = Checks::new();
    let alloc = rt.alloc();
    checks.gives(elf_is_printed(alloc, "/bin/a b", "Elf(\"/bin/a b\")"), true);
    checks.gives(source_is_printed(alloc, "a", "Elf(\"a\")"), true);
    checks.result()
}
