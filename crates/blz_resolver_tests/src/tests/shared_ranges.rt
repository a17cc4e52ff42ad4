//! Functions that name one list of ranges.
use super::built::{Built, Step, image_of};
use super::listings::are_shown;
use super::shown::names_are;
use blz_checks::Checks;
use blz_images::dwarf::codes::*;
use blz_images::{Attribute, ByteOrder};
use std::alloc::Global;
use std::test::Fail;

fn listed<'a>(name: &'a str, list: u32) -> [Attribute<'a>; 2] {
    [
        Attribute::text(DW_AT_NAME, name),
        Attribute::section_offset(DW_AT_RANGES, list),
    ]
}

// a unit at [0, 0x100) in which two functions name one list, two others one that tells no range, and one lies in the first
fn of_one_list(alloc: Global) -> Built {
    // [0x10, 0x20) and [0x30, 0x40); at 7 a pair that is no range
    let lists = [4, 0x10, 0x20, 4, 0x30, 0x40, 0, 4, 0x50, 0x50, 0];
    let steps = [
        Step::Unit(0, 0x100),
        Step::Entry(DW_TAG_SUBPROGRAM, &listed("first", 0)),
        Step::Entry(DW_TAG_SUBPROGRAM, &listed("none", 7)),
        Step::Entry(DW_TAG_SUBPROGRAM, &listed("second", 0)),
        Step::Entry(DW_TAG_SUBPROGRAM, &listed("none again", 7)),
        Step::Function("within", 0x34, 4),
        Step::EndUnit,
    ];
    image_of(
        alloc,
        (ByteOrder::Little, 5),
        &steps,
        &[(".debug_rnglists", &lists)],
    )
}

#[test]
fn functions_of_one_list_are_all_listed_and_the_earlier_is_found(
    rt: HostRuntime,
) -> Result<(), Fail> {
    let mut checks = Checks::new();
    let alloc = rt.alloc();
    names_are(
        &mut checks,
        alloc,
        of_one_list(alloc),
        &[0x12, 0x32, 0x36, 0x50],
        &[Some("first"), Some("first"), Some("within"), None],
    );
    let all = ["first", "second", "within"];
    checks.gives(are_shown(alloc, of_one_list(alloc), 9, &all), true);
    checks.result()
}
