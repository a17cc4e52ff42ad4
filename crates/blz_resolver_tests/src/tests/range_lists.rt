//! Ranges of a unit's root that stand in a list, found by its index, in 64-bit DWARF.
use super::built::Built;
use super::shown::{names_are, refusal_of};
use blz_checks::Checks;
use blz_error::ErrorKind;
use blz_images::Image;
use std::alloc::Global;
use std::test::Fail;

// DW_TAG_compile_unit without children, with DW_AT_rnglists_base as DW_FORM_sec_offset and DW_AT_ranges as
// DW_FORM_rnglistx
const ABBREVIATIONS: &[u8] = b"\x01\x11\0\x74\x17\x55\x23\0\0\0";

// a unit of version 5 (DW_UT_compile, addresses of 8 bytes) whose offsets of lists begin at 20, and whose ranges are
// those of the list 0
const INSIDE: &[u8] =
    b"\xff\xff\xff\xff\x16\0\0\0\0\0\0\0\x05\0\x01\x08\0\0\0\0\0\0\0\0\x01\x14\0\0\0\0\0\0\0\0";

// those of the list 1, which is not there
const OUTSIDE: &[u8] =
    b"\xff\xff\xff\xff\x16\0\0\0\0\0\0\0\x05\0\x01\x08\0\0\0\0\0\0\0\0\x01\x14\0\0\0\0\0\0\0\x01";

// `.debug_rnglists` with one offset, which leads past 2^64 - 1
const LISTS: &[u8] = b"\xff\xff\xff\xff\x10\0\0\0\0\0\0\0\x05\0\x08\0\x01\0\0\0\
      \xff\xff\xff\xff\xff\xff\xff\xff";

// the symbol `A` beside a unit without address range sets
fn image(alloc: Global, unit: &[u8]) -> Built {
    Image::elf64(alloc)
        .symbol("A", 0x10, 0x10)?
        .section(".debug_abbrev", 1, ABBREVIATIONS)?
        .section(".debug_info", 1, unit)?
        .section(".debug_rnglists", 1, LISTS)?
        .bytes()
}

#[test]
fn a_list_past_the_greatest_offset_has_no_value(rt: HostRuntime) -> Result<(), Fail> {
    let mut checks = Checks::new();
    let alloc = rt.alloc();
    checks.same(
        refusal_of(alloc, image(alloc, INSIDE), &[0x14]),
        Some(ErrorKind::InvalidDwarf),
    );
    checks.result()
}

#[test]
fn a_unit_whose_list_has_an_index_outside_is_not_kept(rt: HostRuntime) -> Result<(), Fail> {
    let mut checks = Checks::new();
    let alloc = rt.alloc();
    names_are(
        &mut checks,
        alloc,
        image(alloc, OUTSIDE),
        &[0x14],
        &[Some("A")],
    );
    checks.result()
}
