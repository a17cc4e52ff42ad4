//! A stripped image beside the debug file to which it links.
use super::built::{Built, LITTLE4, Step, written};
use blz_bytes::ByStdSort;
use blz_checks::Checks;
use blz_elf::{Answer, FindSymOpts};
use blz_error::Result;
use blz_images::{Image, UnitKind, no_sections};
use blz_resolver::{Bundle, Companion, symbolize};
use blz_runs::lone;
use std::alloc::Global;
use std::test::Fail;

/// SHT_PROGBITS.
const BYTES: u32 = 1;

// a function at [0x10, 0x20), and a symbol at [0x40, 0x50)
fn debug_file(alloc: Global) -> Built {
    let steps = [
        Step::Unit(0, 0x100),
        Step::Function("function", 0x10, 0x10),
        Step::EndUnit,
    ];
    let entries = written(alloc, LITTLE4, UnitKind::Whole, &steps)?;
    let abbreviations = entries.abbreviations()?;
    Image::elf64(alloc)
        .symbol("symbol", 0x40, 0x10)?
        .section(".debug_abbrev", BYTES, &abbreviations)?
        .section(".debug_info", BYTES, entries.info())?
        .bytes()
}

fn is_found(answer: &Answer<'_>, name: &str, module: &str) -> bool {
    match answer {
        Answer::Sym(found) => found.name == name && found.module == Some(module),
        Answer::NoSym(_) => false,
    }
}

fn are_expected(answers: &[Answer<'_>]) -> bool {
    let [first, second] = answers else {
        return false;
    };
    is_found(first, "function", "program") && is_found(second, "symbol", "program.debug")
}

fn beside_its_debug_file<'b>(
    alloc: Global,
    stripped: &'b [u8],
    debug_file: &'b [u8],
) -> Result<bool> {
    let bundle = Bundle {
        module: Some("program"),
        linkee: Some(Companion {
            image: debug_file,
            module: Some("program.debug"),
        }),
        ..lone(stripped)
    };
    let opts = FindSymOpts::CodeInfo;
    let answers = symbolize(alloc, &mut ByStdSort, &bundle, &[0x14, 0x44], &opts)?;
    Ok(are_expected(&answers))
}

fn linked(alloc: Global) -> Result<bool> {
    let stripped = no_sections(alloc)?;
    let debug_file = debug_file(alloc)?;
    beside_its_debug_file(alloc, &stripped, &debug_file)
}

#[test]
fn a_function_is_of_the_image_and_a_symbol_of_the_debug_file(
    rt: HostRuntime,
) -> std::result::Result<(), Fail> {
    let mut checks = Checks::new();
    checks.gives(linked(rt.alloc()), true);
    checks.result()
}
