//! Paths that are opened.
use super::shown::names;
use blz_checks::Checks;
use blz_error::Result;
use blz_images::nested_functions;
use blz_resolver::files::MemoryFiles;
use blz_resolver::{ElfResolver, OwnedBundle};
use std::alloc::{AllocError, Global};
use std::test::Fail;

fn with_plain(alloc: Global) -> std::result::Result<MemoryFiles, AllocError> {
    let mut files = MemoryFiles::new(alloc);
    files.put("plain", nested_functions(alloc)?)?;
    Ok(files)
}

// whether the module of an image is its path, and its functions are found
fn is_plain(alloc: Global, opened: &OwnedBundle) -> Result<bool> {
    let bundle = opened.bundle();
    let found = names(alloc, &bundle, &[15])?;
    Ok(bundle.module == Some("plain") && found.as_slice() == [Some("B")].as_slice())
}

fn opened(alloc: Global) -> Result<bool> {
    let mut files = with_plain(alloc)?;
    let opened = ElfResolver::open(alloc, &mut files, "plain")?;
    is_plain(alloc, &opened)
}

fn opened_without_debug_dirs(alloc: Global) -> Result<bool> {
    let mut files = with_plain(alloc)?;
    let opened = ElfResolver::open_with_debug_dirs(alloc, &mut files, "plain", &[])?;
    is_plain(alloc, &opened)
}

#[test]
fn an_image_is_named_by_its_path(rt: HostRuntime) -> std::result::Result<(), Fail> {
    let mut checks = Checks::new();
    checks.gives(opened(rt.alloc()), true);
    checks.gives(opened_without_debug_dirs(rt.alloc()), true);
    checks.result()
}
