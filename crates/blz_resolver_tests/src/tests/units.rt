//! Units that are met only where an address leads to them.
use super::built::{Built, FORMATS, Format, LITTLE4, Step, image_of};
use super::shown::{names_are, refusal_of};
use blz_checks::Checks;
use blz_error::ErrorKind;
use blz_images::{ByteOrder, address_ranges};
use std::alloc::Global;
use std::test::Fail;

// a set of 16 addresses for each unit, which is given by its offset and the first address
fn sets(alloc: Global, order: ByteOrder, units: [(u32, u64); 2]) -> Built {
    let mut sets = Vec::new(alloc);
    for (unit, begin) in units {
        let set = address_ranges(alloc, order, unit, &[(begin, 0x10)])?;
        sets.extend_from_slice(&set)?;
    }
    Ok(sets)
}

// two units of 44 bytes and more, from version 5 on of one byte more, and sets for them
fn with_sets(alloc: Global, format: Format, sets: &[u8]) -> Built {
    let steps = [
        Step::Unit(0x10, 0x10),
        Step::Function("sound", 0x10, 0x10),
        Step::EndUnit,
        Step::Unit(0x20, 0x10),
        Step::Raw(&[0x7f]),
        Step::EndUnit,
    ];
    image_of(alloc, format, &steps, &[(".debug_aranges", sets)])
}

fn second_unit(format: Format) -> u32 {
    if format.1 >= 5 { 45 } else { 44 }
}

/// Two units, each announced by a set: `sound` at [0x10, 0x20), and one at [0x20, 0x30) with a code that no
/// abbreviation has.
pub fn broken_second_unit(alloc: Global, format: Format) -> Built {
    let sets = sets(alloc, format.0, [(0, 0x10), (second_unit(format), 0x20)])?;
    with_sets(alloc, format, &sets)
}

// the same with the set of the second unit first
fn falling_sets(alloc: Global) -> Built {
    let sets = sets(alloc, LITTLE4.0, [(second_unit(LITTLE4), 0x20), (0, 0x10)])?;
    with_sets(alloc, LITTLE4, &sets)
}

#[test]
fn a_broken_unit_is_met_by_its_own_addresses_alone(rt: HostRuntime) -> Result<(), Fail> {
    let mut checks = Checks::new();
    let alloc = rt.alloc();
    let broken = Some(ErrorKind::InvalidDwarf);
    for format in FORMATS {
        let image = broken_second_unit(alloc, format);
        names_are(
            &mut checks,
            alloc,
            image,
            &[0x12, 0x30],
            &[Some("sound"), None],
        );
        let image = broken_second_unit(alloc, format);
        checks.same(refusal_of(alloc, image, &[0x12, 0x22]), broken);
    }
    checks.result()
}

#[test]
fn units_are_found_by_sets_in_any_order(rt: HostRuntime) -> Result<(), Fail> {
    let mut checks = Checks::new();
    let alloc = rt.alloc();
    let image = falling_sets(alloc);
    names_are(
        &mut checks,
        alloc,
        image,
        &[0x12, 0x30],
        &[Some("sound"), None],
    );
    checks.same(
        refusal_of(alloc, falling_sets(alloc), &[0x22]),
        Some(ErrorKind::InvalidDwarf),
    );
    checks.result()
}
