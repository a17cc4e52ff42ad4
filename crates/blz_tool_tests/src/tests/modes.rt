//! What is asked beside the symbol, and where debug files are looked for.
use crate::tests::runs::{holding, written};
use blz_checks::Checks;
use blz_images::{ByteOrder, Image, debug_link, realistic_walk, with_nested_functions};
use blz_resolver::files::MemoryFiles;
use std::alloc::{AllocError, Global};
use std::test::Fail;

fn walk(alloc: Global) -> Result<MemoryFiles, AllocError> {
    holding(alloc, "prog", realistic_walk(alloc, ByteOrder::Little)?)
}

#[test]
fn basic_prints_the_symbol_alone(rt: HostRuntime) -> Result<(), Fail> {
    let mut checks = Checks::new();
    let alloc = rt.alloc();
    let out = written(
        alloc,
        &mut walk(alloc).expect(&rt, "refused"),
        &["--basic", "prog", "1150"],
    )
    .expect(&rt, "refused");
    checks.same(out.bytes(), b"0000000000001150 main\n".as_slice());
    checks.result()
}

#[test]
fn lines_print_the_place_without_inlined_calls(rt: HostRuntime) -> Result<(), Fail> {
    let mut checks = Checks::new();
    let alloc = rt.alloc();
    let text = b"0000000000001150 main at /home/u/p/sq.h:3:12\n".as_slice();
    let mut files = walk(alloc).expect(&rt, "refused");
    checks.same(
        written(alloc, &mut files, &["--lines", "prog", "0x1150"])
            .expect(&rt, "refused")
            .bytes(),
        text,
    );
    checks.same(
        written(alloc, &mut files, &["prog", "1150", "--lines"])
            .expect(&rt, "refused")
            .bytes(),
        text,
    );
    checks.result()
}

// `/x/a` links to `a.debug`, and the files that could stand there are not the one that it means.
fn linked(alloc: Global) -> Result<MemoryFiles, AllocError> {
    let link = debug_link(alloc, ByteOrder::Little, "a.debug", 1)?;
    let image = Image::elf64(alloc).section(".gnu_debuglink", 1, link.as_slice())?;
    let mut files = holding(alloc, "/x/a", with_nested_functions(image)?)?;
    files.put(
        "/usr/lib/debug/x/a.debug",
        Vec::from_slice(alloc, b"other")?,
    )?;
    files.put("/d/x/a.debug", Vec::from_slice(alloc, b"other")?)?;
    Ok(files)
}

const REFUSED: &[u8] = b"blz_tool: invalid data\n";

const TEXT: &[u8] = b"000000000000000f B\n";

#[test]
fn debug_files_are_looked_for_in_the_default_directories(rt: HostRuntime) -> Result<(), Fail> {
    let mut checks = Checks::new();
    let alloc = rt.alloc();
    let out = written(
        alloc,
        &mut linked(alloc).expect(&rt, "refused"),
        &["/x/a", "f"],
    )
    .expect(&rt, "refused");
    checks.same(out.bytes(), REFUSED);
    checks.result()
}

#[test]
fn directories_that_are_given_replace_the_default_ones(rt: HostRuntime) -> Result<(), Fail> {
    let mut checks = Checks::new();
    let alloc = rt.alloc();
    let mut files = linked(alloc).expect(&rt, "refused");
    for dirs in ["", ":", "/e", "/e:/f"] {
        let out = written(alloc, &mut files, &["--debug-dirs", dirs, "/x/a", "f"]).expect(
            &rt, "refused",
        );
        checks.same(out.bytes(), TEXT);
    }
    for dirs in ["/d", "/e:/d", ":/e::/d/:"] {
        let out = written(alloc, &mut files, &["--debug-dirs", dirs, "/x/a", "f"]).expect(
            &rt, "refused",
        );
        checks.same(out.bytes(), REFUSED);
    }
    checks.result()
}
