//! Names that stand at other entries.
use super::built::{Built, FORMATS, Format, LITTLE4};
use super::shown::{names_are, refusal_of};
use blz_checks::Checks;
use blz_error::ErrorKind;
use blz_images::dwarf::codes::*;
use blz_images::{Attribute, DebugInfo};
use std::alloc::{AllocError, Global};
use std::test::Fail;

// the places of the first entries of 5 bytes below the root of a unit of version 4
const FIRST: u32 = 24;

const SECOND: u32 = 29;

fn origin<'a>(place: u32) -> Attribute<'a> {
    Attribute::reference(DW_AT_ABSTRACT_ORIGIN, place)
}

fn deep<'a>() -> Attribute<'a> {
    Attribute::text(DW_AT_NAME, "deep")
}

// Puts an entry with the name `deep` and others, each of which leads to the one before it; gives the place of the last.
fn put_chain(entries: &mut DebugInfo, count: u8) -> Result<u32, AllocError> {
    let mut place = entries.place();
    entries.entry(DW_TAG_SUBPROGRAM, &[deep()])?;
    for _ in 1..count {
        let next = entries.place();
        entries.entry(DW_TAG_SUBPROGRAM, &[origin(place)])?;
        place = next;
    }
    Ok(place)
}

// the name of a function is looked for over that many entries, of which the last has it
fn chain(alloc: Global, format: Format, count: u8) -> Built {
    let mut entries = DebugInfo::new(alloc, format.0, format.1);
    entries.open_unit(0, 0x100)?;
    let place = put_chain(&mut entries, count)?;
    entries.function_of(origin(place), 0x10, 0x10)?;
    entries.close_unit()?;
    entries.image(alloc, &[])
}

#[test]
fn a_name_is_followed_over_sixteen_entries(rt: HostRuntime) -> Result<(), Fail> {
    let mut checks = Checks::new();
    let alloc = rt.alloc();
    for format in FORMATS {
        names_are(
            &mut checks,
            alloc,
            chain(alloc, format, 16),
            &[0x12],
            &[Some("deep")],
        );
        names_are(
            &mut checks,
            alloc,
            chain(alloc, format, 17),
            &[0x12],
            &[Some("")],
        );
    }
    checks.result()
}

// a function whose name is that of the first of two entries, which lead to these places
fn leading_to(alloc: Global, first: u32, second: u32) -> Built {
    let mut entries = DebugInfo::new(alloc, LITTLE4.0, LITTLE4.1);
    entries.open_unit(0, 0x100)?;
    entries.entry(DW_TAG_SUBPROGRAM, &[origin(first)])?;
    entries.entry(DW_TAG_SUBPROGRAM, &[origin(second)])?;
    entries.function_of(origin(FIRST), 0x10, 0x10)?;
    entries.close_unit()?;
    entries.image(alloc, &[])
}

#[test]
fn a_name_in_a_circle_is_empty(rt: HostRuntime) -> Result<(), Fail> {
    let mut checks = Checks::new();
    let alloc = rt.alloc();
    // a circle of one entry, and one of two
    for first in [FIRST, SECOND] {
        let image = leading_to(alloc, first, FIRST);
        names_are(&mut checks, alloc, image, &[0x12], &[Some("")]);
    }
    // a reference that counts from the start of the unit leads past its end
    checks.same(
        refusal_of(alloc, leading_to(alloc, 0x1000, FIRST), &[0x12]),
        Some(ErrorKind::InvalidDwarf),
    );
    checks.result()
}

// a function of the third unit leads to an entry of the second, which leads on there
fn chain_over_units(alloc: Global, format: Format) -> Built {
    let mut entries = DebugInfo::new(alloc, format.0, format.1);
    entries.open_unit(0x200, 0x10)?;
    entries.close_unit()?;
    let second = entries.unit_offset();
    entries.open_unit(0x300, 0x10)?;
    let place = put_chain(&mut entries, 2)?;
    entries.close_unit()?;
    entries.open_unit(0, 0x100)?;
    let elsewhere = second.saturating_add(place);
    let origin = Attribute::file_reference(DW_AT_ABSTRACT_ORIGIN, elsewhere);
    entries.function_of(origin, 0x10, 0x10)?;
    entries.close_unit()?;
    entries.image(alloc, &[])
}

#[test]
fn a_name_is_followed_into_another_unit(rt: HostRuntime) -> Result<(), Fail> {
    let mut checks = Checks::new();
    let alloc = rt.alloc();
    for format in FORMATS {
        // such a reference is as wide as an address in version 2
        if format.1 > 2 {
            let image = chain_over_units(alloc, format);
            names_are(&mut checks, alloc, image, &[0x12], &[Some("deep")]);
        }
    }
    checks.result()
}
