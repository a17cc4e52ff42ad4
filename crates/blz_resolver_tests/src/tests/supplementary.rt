//! Names that stand in the supplementary file.
use super::built::{Built, FORMATS, Format, LITTLE4, Step, image_of};
use super::shown::{is_named, names, names_are};
use blz_checks::Checks;
use blz_error::{ErrorKind, Result};
use blz_images::dwarf::codes::*;
use blz_images::{Attribute, ByteOrder, DebugInfo, with_section};
use blz_resolver::{Bundle, Companion};
use blz_runs::{lone, refusal};
use std::alloc::Global;
use std::test::Fail;

/// Entries of a supplementary file: one with the name `shared`, one with the name `deep`, and one that leads to that.
#[derive(Clone, Copy)]
enum Entry {
    Shared,
    Deep,
    Leading,
}

// the place of an entry, behind a header of 11 bytes, or 12, and a root of one byte
fn place(format: Format, entry: Entry) -> u32 {
    let late = format.1 >= 5;
    match (late, entry) {
        (false, Entry::Shared) => 12,
        (false, Entry::Deep) => 20,
        (false, Entry::Leading) => 26,
        (true, Entry::Shared) => 13,
        (true, Entry::Deep) => 21,
        (true, Entry::Leading) => 27,
    }
}

fn supplementary(alloc: Global, format: Format) -> Built {
    let mut entries = DebugInfo::new(alloc, format.0, format.1);
    entries.open(DW_TAG_COMPILE_UNIT, &[])?;
    entries.entry(DW_TAG_SUBPROGRAM, &[Attribute::text(DW_AT_NAME, "shared")])?;
    entries.entry(DW_TAG_SUBPROGRAM, &[Attribute::text(DW_AT_NAME, "deep")])?;
    let deep = Attribute::file_reference(DW_AT_ABSTRACT_ORIGIN, place(format, Entry::Deep));
    entries.entry(DW_TAG_SUBPROGRAM, &[deep])?;
    entries.close_unit()?;
    entries.image(alloc, &[])
}

// a function at [0x10, 0x20), whose name stands at an offset in the supplementary file
fn named_elsewhere(alloc: Global, format: Format, offset: u32) -> Built {
    let origin = Attribute::supplementary_reference(DW_AT_ABSTRACT_ORIGIN, offset);
    let steps = [
        Step::Unit(0, 0x100),
        Step::FunctionOf(origin),
        Step::EndUnit,
    ];
    image_of(alloc, format, &steps, &[])
}

fn beside<'b>(image: &'b [u8], supplementary: &'b [u8]) -> Bundle<'b> {
    Bundle {
        supplementary: Some(Companion {
            image: supplementary,
            module: None,
        }),
        ..lone(image)
    }
}

// whether the function has this name beside a supplementary file
fn has_name(alloc: Global, image: Built, supplementary: Built, name: &str) -> Result<bool> {
    let image = image?;
    let supplementary = supplementary?;
    is_named(alloc, &beside(&image, &supplementary), 0x12, name)
}

#[test]
fn a_name_is_followed_into_the_supplementary_file(
    rt: HostRuntime,
) -> std::result::Result<(), Fail> {
    let mut checks = Checks::new();
    let alloc = rt.alloc();
    for format in FORMATS {
        let image = named_elsewhere(alloc, format, place(LITTLE4, Entry::Shared));
        let shared = supplementary(alloc, LITTLE4);
        checks.gives(has_name(alloc, image, shared, "shared"), true);
    }
    checks.result()
}

#[test]
fn a_name_is_followed_within_the_supplementary_file(
    rt: HostRuntime,
) -> std::result::Result<(), Fail> {
    let mut checks = Checks::new();
    let alloc = rt.alloc();
    for version in [3, 4, 5] {
        let format = (ByteOrder::Big, version);
        let image = named_elsewhere(alloc, LITTLE4, place(format, Entry::Leading));
        checks.gives(
            has_name(alloc, image, supplementary(alloc, format), "deep"),
            true,
        );
    }
    checks.result()
}

#[test]
fn what_the_supplementary_file_lacks_is_refused_and_has_no_name_without_it(
    rt: HostRuntime,
) -> std::result::Result<(), Fail> {
    let mut checks = Checks::new();
    let alloc = rt.alloc();
    let image = named_elsewhere(alloc, LITTLE4, 0x1000);
    let shared = supplementary(alloc, LITTLE4);
    let refused = refusal(has_name(alloc, image, shared, ""));
    checks.same(refused, Some(ErrorKind::InvalidDwarf));
    let image = named_elsewhere(alloc, LITTLE4, place(LITTLE4, Entry::Shared));
    names_are(&mut checks, alloc, image, &[0x12], &[Some("")]);
    checks.result()
}

// why a supplementary file with units of two bytes is refused without addresses
fn short_units(alloc: Global) -> Result<Option<ErrorKind>> {
    let image = named_elsewhere(alloc, LITTLE4, 0)?;
    let short = with_section(alloc, ".debug_info", &[0, 0])?;
    Ok(refusal(names(alloc, &beside(&image, &short), &[])))
}

#[test]
fn broken_supplementary_units_are_refused_without_addresses(
    rt: HostRuntime,
) -> std::result::Result<(), Fail> {
    let mut checks = Checks::new();
    checks.gives(short_units(rt.alloc()), Some(ErrorKind::InvalidDwarf));
    checks.result()
}
