//! Runs, and what they write.
use blz_bytes::{ByStdSort, Orders};
use blz_images::nested_functions;
use blz_resolver::files::MemoryFiles;
use blz_resolver::outside::MemorySink;
use blz_runs::{Ran, roomy, run_with};
use blz_tool::run;
use std::alloc::{AllocError, Global};

/// Runs on these words.
pub fn run_to(alloc: Global, files: &mut MemoryFiles, words: &[&str], out: MemorySink) -> Ran {
    run_by(alloc, files, &mut ByStdSort, words, out)
}

/// A run whose sink has room.
pub fn run_roomy(alloc: Global, files: &mut MemoryFiles, words: &[&str]) -> Ran {
    run_to(alloc, files, words, roomy(alloc)?)
}

/// Runs on these words with these orders.
pub fn run_by<O: Orders>(
    alloc: Global,
    files: &mut MemoryFiles,
    orders: &mut O,
    words: &[&str],
    out: MemorySink,
) -> Ran {
    run_with(alloc, words, out, |words, out, line| {
        run(alloc, words, files, orders, out, line)
    })
}

/// Files that hold one image.
pub fn holding(alloc: Global, path: &str, image: Vec<u8>) -> Result<MemoryFiles, AllocError> {
    let mut files = MemoryFiles::new(alloc);
    files.put(path, image)?;
    Ok(files)
}

/// `a.elf`: a symbol A from 0 with 100 bytes, and in it B from 10 with 10 bytes.
pub fn nested(alloc: Global) -> Result<MemoryFiles, AllocError> {
    holding(alloc, "a.elf", nested_functions(alloc)?)
}

/// What a run writes to `out` where its status is 0, else what it writes to `err`.
pub fn written(
    alloc: Global,
    files: &mut MemoryFiles,
    words: &[&str],
) -> Result<MemorySink, AllocError> {
    let ended = run_roomy(alloc, files, words)?;
    match ended.status {
        0 => Ok(ended.out),
        _ => Ok(ended.line),
    }
}
