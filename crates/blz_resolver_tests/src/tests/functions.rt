//! Functions by their ranges.
use super::built::{Built, FORMATS, Format, LITTLE4, Step, image_of};
use super::shown::{name_of, names_are};
use blz_bytes::ByStdSort;
use blz_checks::Checks;
use blz_elf::{Answer, FindSymOpts, Reason};
use blz_error::Result;
use blz_images::dwarf::codes::*;
use blz_images::{Attribute, ByteOrder, range_pairs};
use blz_resolver::symbolize;
use blz_runs::lone;
use std::alloc::Global;
use std::test::Fail;

// a unit at [0, 0x100) with two functions
fn two_functions(alloc: Global, format: Format, first: (u64, u32), second: (u64, u32)) -> Built {
    let steps = [
        Step::Unit(0, 0x100),
        Step::Function("first", first.0, first.1),
        Step::Function("second", second.0, second.1),
        Step::EndUnit,
    ];
    image_of(alloc, format, &steps, &[])
}

/// [0x10, 0x30), and [0x20, 0x28) in it.
pub fn nested(alloc: Global, format: Format) -> Built {
    two_functions(alloc, format, (0x10, 0x20), (0x20, 8))
}

// [0x10, 0x20) and [0x10, 0x30)
fn of_equal_begins(alloc: Global, format: Format) -> Built {
    two_functions(alloc, format, (0x10, 0x10), (0x10, 0x20))
}

#[test]
fn of_the_greatest_begin_the_earlier_function_is_found(
    rt: HostRuntime,
) -> std::result::Result<(), Fail> {
    let mut checks = Checks::new();
    let alloc = rt.alloc();
    let (first, second) = (Some("first"), Some("second"));
    for format in FORMATS {
        names_are(
            &mut checks,
            alloc,
            nested(alloc, format),
            &[0x24, 0x2a, 0x30],
            &[second, first, None],
        );
        names_are(
            &mut checks,
            alloc,
            of_equal_begins(alloc, format),
            &[0x15, 0x25],
            &[first, second],
        );
    }
    checks.result()
}

// a function with a list of ranges and no low address; the list stands at the start of the section
fn with_ranges(alloc: Global, version: u16, section: &str, list: &[u8]) -> Built {
    let attributes = [
        Attribute::text(DW_AT_NAME, "ranged"),
        Attribute::section_offset(DW_AT_RANGES, 0),
    ];
    let steps = [
        Step::Unit(0, 0x100),
        Step::Entry(DW_TAG_SUBPROGRAM, &attributes),
        Step::EndUnit,
    ];
    image_of(
        alloc,
        (ByteOrder::Little, version),
        &steps,
        &[(section, list)],
    )
}

// with the pair [0x10, 0x20)
fn with_pairs(alloc: Global) -> Built {
    let pairs = range_pairs(alloc, ByteOrder::Little, &[(0x10, 0x20)])?;
    with_ranges(alloc, 4, ".debug_ranges", &pairs)
}

fn is_without_begin(answer: Option<&Answer<'_>>) -> bool {
    match answer {
        Some(Answer::Sym(found)) => {
            found.name == "ranged" && found.addr == 0 && found.size.is_none()
        }
        _ => false,
    }
}

// whether the function of 0x12 has no begin
fn has_no_begin(alloc: Global, image: Built) -> Result<bool> {
    let image = image?;
    let opts = FindSymOpts::Basic;
    let answers = symbolize(alloc, &mut ByStdSort, &lone(&image), &[0x12], &opts)?;
    Ok(is_without_begin(answers.first()))
}

#[test]
fn without_a_low_address_there_is_no_begin(rt: HostRuntime) -> std::result::Result<(), Fail> {
    let mut checks = Checks::new();
    let alloc = rt.alloc();
    checks.gives(has_no_begin(alloc, with_pairs(alloc)), true);
    // an offset pair, and the end
    let list = [4, 0x10, 0x20, 0];
    let image = with_ranges(alloc, 5, ".debug_rnglists", &list);
    checks.gives(has_no_begin(alloc, image), true);
    checks.result()
}

// no symbols, and a unit at [0x10, 0x20) with a function whose end would pass the last address
fn past_the_last_address(alloc: Global) -> Built {
    let steps = [
        Step::Unit(0x10, 0x10),
        Step::Function("past the end", u64::MAX, 8),
        Step::Function("second", 0x10, 0x10),
        Step::EndUnit,
    ];
    image_of(alloc, LITTLE4, &steps, &[])
}

fn are_second_and_none(answers: &[Answer<'_>]) -> bool {
    let [inside, last] = answers else {
        return false;
    };
    name_of(inside) == Some("second") && matches!(last, Answer::NoSym(Reason::MissingSyms))
}

fn last_is_not_covered(alloc: Global) -> Result<bool> {
    let image = past_the_last_address(alloc)?;
    let opts = FindSymOpts::CodeInfoAndInlined;
    let addrs = [0x12, u64::MAX];
    let answers = symbolize(alloc, &mut ByStdSort, &lone(&image), &addrs, &opts)?;
    Ok(are_second_and_none(&answers))
}

#[test]
fn no_function_covers_the_last_address(rt: HostRuntime) -> std::result::Result<(), Fail> {
    let mut checks = Checks::new();
    checks.gives(last_is_not_covered(rt.alloc()), true);
    checks.result()
}
