//! What was found, in the form in which tests compare it.
use blz_bytes::ByStdSort;
use blz_error::{ErrorKind, Result};
use blz_images::nested_functions;
use blz_inspector::{Elf, Found, FoundInfos, Inspector, Source};
use blz_links::MemoryFiles;
use std::alloc::{AllocError, Global};

/// How many symbols were found for a name, and the address and the size of the first.
pub type Spot = (usize, Option<(u64, Option<u64>)>);

/// What was found for two names, or why they were refused.
pub type Looked = std::result::Result<[Spot; 2], ErrorKind>;

/// One symbol, at an address and of a size.
pub fn one_at(addr: u64, size: u64) -> Spot {
    (1, Some((addr, Some(size))))
}

/// No symbol.
pub const NONE: Spot = (0, None);

/// A file whose debug information is asked, or its symbols alone.
pub fn source(
    alloc: Global,
    path: &str,
    debug_syms: bool,
) -> std::result::Result<Source, AllocError> {
    let path = String::from_str(alloc, path)?;
    Ok(Source::from(Elf { path, debug_syms }))
}

/// Files with `a.elf`, which has A of 100 bytes at 0 and B in it.
pub fn nested_files(alloc: Global) -> std::result::Result<MemoryFiles, AllocError> {
    let mut files = MemoryFiles::new(alloc);
    files.put("a.elf", nested_functions(alloc)?)?;
    Ok(files)
}

fn spot(infos: Option<&FoundInfos>) -> Spot {
    let Some(infos) = infos else {
        return NONE;
    };
    match infos.get(0) {
        Some(info) => (infos.len(), Some((info.addr, info.size))),
        None => (infos.len(), None),
    }
}

fn spots(found: &Found) -> [Spot; 2] {
    [spot(found.get(0)), spot(found.get(1))]
}

fn two(alloc: Global, names: (&str, &str)) -> std::result::Result<Vec<String>, AllocError> {
    let mut list = Vec::new(alloc);
    for name in [names.0, names.1] {
        list.push(String::from_str(alloc, name)?)?;
    }
    Ok(list)
}

fn found(
    alloc: Global,
    inspector: &mut Inspector,
    files: &mut MemoryFiles,
    source: &Source,
    names: (&str, &str),
) -> Result<[Spot; 2]> {
    let names = two(alloc, names)?;
    let found = inspector.lookup(alloc, files, &mut ByStdSort, source, &names)?;
    Ok(spots(&found))
}

/// What is found of two names.
pub fn look_up(
    alloc: Global,
    inspector: &mut Inspector,
    files: &mut MemoryFiles,
    source: &Source,
    names: (&str, &str),
) -> Looked {
    match found(alloc, inspector, files, source, names) {
        Ok(spots) => Ok(spots),
        Err(error) => Err(error.kind()),
    }
}
