//! Entries one after the other.
use super::small::{entries_at, header, no_sections, section};
use blz_checks::Checks;
use blz_entry::{Abbreviations, AttrValue, Entries, Sections, UnitHeader};
use blz_relocations::RelocationMap;
use std::test::Fail;

#[test]
fn attributes_are_read_one_by_one_or_passed_over(rt: HostRuntime) -> Result<(), Fail> {
    let mut checks = Checks::new();
    let relocations = RelocationMap::new(rt.alloc());
    let info = b"\x07\x2a\x07\x2b\0";
    let abbreviations = Abbreviations::parse(rt.alloc(), b"\x07\x2e\x01\x03\x0b\0\0\0", 0).expect(
        &rt, "refused",
    );
    let mut entries = entries_at(info, &relocations, &abbreviations, 0).expect(&rt, "refused");
    let first = entries
        .next_entry()
        .expect(&rt, "refused")
        .expect(&rt, "an entry");
    checks.same((first.depth, first.code, first.tag), (0, 7, 0x2e));
    let spec = *entries.pending().first().expect(&rt, "an attribute");
    checks.gives(entries.read_attribute(spec), AttrValue::Const(0x2a));
    let second = entries
        .next_entry()
        .expect(&rt, "refused")
        .expect(&rt, "an entry");
    checks.same((second.place, second.depth), (2, 1));
    entries.skip_attributes().expect(&rt, "refused");
    let zero = entries
        .next_entry()
        .expect(&rt, "refused")
        .expect(&rt, "a zero");
    checks.same((zero.depth, zero.code), (2, 0));
    checks.holds(entries.next_entry().expect(&rt, "refused").is_none());
    checks.holds(entries_at(info, &relocations, &abbreviations, 6).is_err());
    checks.result()
}

fn second_place(
    info: &[u8],
    abbreviations: &Abbreviations,
    relocations: &RelocationMap,
    unit: UnitHeader,
) -> Option<usize> {
    let sections = Sections {
        info: section(info, relocations),
        ..no_sections(relocations)
    };
    let Ok(mut entries) = Entries::new(sections, unit, abbreviations, 0) else {
        return None;
    };
    let Ok(Some(_)) = entries.next_entry() else {
        return None;
    };
    let Ok(Some(second)) = entries.next_entry() else {
        return None;
    };
    Some(second.place)
}

// DW_FORM_addr, ref_addr, strp, data16, flag_present and implicit_const
const FIXED: &[u8] = b"\x01\x34\0\x11\x01\x49\x10\x03\x0e\x1c\x1e\x3f\x19\x3a\x21\x05\0\0\0";

#[test]
fn an_entry_of_fixed_size_ends_where_its_unit_tells(rt: HostRuntime) -> Result<(), Fail> {
    let mut checks = Checks::new();
    let relocations = RelocationMap::new(rt.alloc());
    let abbreviations = Abbreviations::parse(rt.alloc(), FIXED, 0).expect(&rt, "refused");
    let bytes = [1u8; 45];
    let now = UnitHeader {
        end: 45,
        ..header(5)
    };
    let old = UnitHeader { version: 2, ..now };
    let wide = UnitHeader { wide: true, ..now };
    let strange = UnitHeader {
        address_size: 2,
        ..now
    };
    checks.same(
        second_place(&bytes, &abbreviations, &relocations, now),
        Some(33),
    );
    checks.same(
        second_place(&bytes, &abbreviations, &relocations, old),
        Some(37),
    );
    checks.same(
        second_place(&bytes, &abbreviations, &relocations, wide),
        Some(41),
    );
    checks.holds(second_place(&bytes, &abbreviations, &relocations, strange).is_none());
    let short = UnitHeader { end: 32, ..now };
    checks.holds(second_place(&bytes, &abbreviations, &relocations, short).is_none());
    checks.result()
}
