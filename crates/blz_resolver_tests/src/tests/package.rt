//! A unit whose functions stand in a package.
use super::built::{Built, Step, lines_of, written};
use super::shown::is_named;
use blz_bytes::ByStdSort;
use blz_checks::Checks;
use blz_elf::{Answer, FindSymOpts, ResolvedSym, SrcLang};
use blz_error::Result;
use blz_images::dwarf::codes::*;
use blz_images::{Attribute, ByteOrder, UnitKind, package_of_unit};
use blz_resolver::{Bundle, Companion, symbolize};
use blz_runs::lone;
use std::alloc::Global;
use std::test::Fail;

// a row of line 7 of `lib.rs` at 0x10: DW_LNS_advance_line, DW_LNS_copy, DW_LNS_advance_pc and DW_LNE_end_sequence
fn lines(alloc: Global, order: ByteOrder) -> Built {
    let opcodes = [3, 6, 1, 2, 0x10, 0, 1, 1];
    lines_of(
        alloc,
        (order, 5),
        &["/p"],
        &["lib.rs", "lib.rs"],
        0x10,
        &opcodes,
    )
}

// the unit of a number in the main file: of Rust, with lines, and with a function of its own
fn skeleton(alloc: Global, order: ByteOrder, id: u64) -> Built {
    let lines = lines(alloc, order)?;
    let root = [
        Attribute::text(DW_AT_COMP_DIR, "/p"),
        // DW_LANG_Rust
        Attribute::data2(DW_AT_LANGUAGE, 0x1c),
        Attribute::section_offset(DW_AT_STMT_LIST, 0),
        Attribute::address(DW_AT_LOW_PC, 0x10),
        Attribute::data4(DW_AT_HIGH_PC, 0x10),
    ];
    let steps = [
        Step::Open(DW_TAG_SKELETON_UNIT, &root),
        Step::Function("of the skeleton", 0x10, 0x10),
        Step::EndUnit,
    ];
    let entries = written(alloc, (order, 5), UnitKind::Skeleton(id), &steps)?;
    entries.image(alloc, &[(".debug_line", &lines)])
}

// the unit 7 of another language in the second row, an empty one in the first, and slots that name no row
fn package(alloc: Global, order: ByteOrder) -> Built {
    // DW_LANG_C_plus_plus
    let root = [Attribute::data1(DW_AT_LANGUAGE, 4)];
    let steps = [
        Step::Open(DW_TAG_COMPILE_UNIT, &root),
        Step::Function("of the package", 0x10, 0x10),
        Step::EndUnit,
    ];
    let entries = written(alloc, (order, 5), UnitKind::Split(7), &steps)?;
    package_of_unit(alloc, &entries, 2, &[(7, 0), (7, 2), (9, 1)])
}

fn with_package<'b>(image: &'b [u8], package: &'b [u8]) -> Bundle<'b> {
    Bundle {
        package: Some(Companion {
            image: package,
            module: None,
        }),
        ..lone(image)
    }
}

fn is_as_expected(found: &ResolvedSym<'_>) -> bool {
    let Some(place) = &found.code_info else {
        return false;
    };
    found.name == "of the package"
        && found.lang == SrcLang::Rust
        && place.file == b"lib.rs".as_slice()
        && place.line == Some(7)
}

fn is_of_both(alloc: Global, bundle: &Bundle<'_>) -> Result<bool> {
    let opts = FindSymOpts::CodeInfoAndInlined;
    let answers = symbolize(alloc, &mut ByStdSort, bundle, &[0x14], &opts)?;
    match answers.first() {
        Some(Answer::Sym(found)) => Ok(is_as_expected(found)),
        _ => Ok(false),
    }
}

fn found_in_both(alloc: Global, order: ByteOrder) -> Result<bool> {
    let image = skeleton(alloc, order, 7)?;
    let package = package(alloc, order)?;
    is_of_both(alloc, &with_package(&image, &package))
}

#[test]
fn the_package_has_the_function_and_not_its_line_and_language(
    rt: HostRuntime,
) -> std::result::Result<(), Fail> {
    let mut checks = Checks::new();
    for order in [ByteOrder::Little, ByteOrder::Big] {
        checks.gives(found_in_both(rt.alloc(), order), true);
    }
    checks.result()
}

// whether the function of a unit of this number is the skeleton's own
fn is_of_the_skeleton(alloc: Global, id: u64) -> Result<bool> {
    let image = skeleton(alloc, ByteOrder::Little, id)?;
    let package = package(alloc, ByteOrder::Little)?;
    let bundle = with_package(&image, &package);
    is_named(alloc, &bundle, 0x14, "of the skeleton")
}

#[test]
fn a_unit_that_the_package_lacks_is_read_itself(rt: HostRuntime) -> std::result::Result<(), Fail> {
    let mut checks = Checks::new();
    for (id, itself) in [(7, false), (8, true), (9, true)] {
        checks.gives(is_of_the_skeleton(rt.alloc(), id), itself);
    }
    checks.result()
}
