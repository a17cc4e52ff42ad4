//! The attributes of an entry that tell what a function or an inlined call is.
use super::small::entries_at;
use blz_bytes::Room;
use blz_checks::Checks;
use blz_entry::{
    Abbreviations, AttrValue, Encoding, Entries, Passing, StrPart, StrPlace, no_attribute,
};
use blz_relocations::RelocationMap;
use std::alloc::Global;
use std::test::Fail;

// DW_AT_external, name, decl_line, frame_base, low_pc, high_pc, call_line (an implicit constant of 9) and object_pointer
// of a subprogram, and of a variable
const TABLE: &[u8] =
    b"\x01\x2e\0\x3f\x19\x03\x08\x3b\x0b\x40\x18\x11\x01\x12\x06\x59\x21\x09\x64\x13\0\0\x02\x34\0\x3f\x19\x03\x08\x3b\x0b\x40\x18\x11\x01\x12\x06\x59\x21\x09\x64\x13\0\0\0";

const INFO: &[u8] =
    b"\x01f\0\x05\x01\x9c\0\x10\0\0\0\0\0\0\x20\0\0\0\0\0\0\0\x02g\0\x05\x01\x9c\0\x10\0\0\0\0\0\0\x20\0\0\0\0\0\0\0";

fn wanted(
    alloc: Global,
    entries: &mut Entries<'_, '_>,
) -> blz_error::Result<Vec<(u64, AttrValue)>> {
    let mut found = Vec::new(alloc);
    for _ in 0..8 {
        match entries.next_wanted() {
            Some(Some(attribute)) => found.push(attribute)?,
            Some(None) => return Ok(found),
            None => return Err(no_attribute()),
        }
    }
    Ok(found)
}

fn told(start: usize) -> [(u64, AttrValue); 4] {
    let name = StrPlace {
        part: StrPart::Info,
        start,
        len: 1,
    };
    [
        (0x03, AttrValue::Text(name)),
        (0x11, AttrValue::Addr(0x1000)),
        (0x12, AttrValue::Const(0x20)),
        (0x59, AttrValue::Signed(9)),
    ]
}

// both entries by a table that is read for one encoding
fn check_values(checks: &mut Checks, alloc: Global, version: u16) -> blz_error::Result<()> {
    let relocations = RelocationMap::new(alloc);
    let encoding = Encoding {
        version,
        wide: false,
        address_size: 8,
    };
    let mut room = Room::endless();
    let abbreviations = Abbreviations::parse_for(alloc, &mut room, TABLE, 0, encoding)?;
    let mut entries = entries_at(INFO, &relocations, &abbreviations, 0)?;
    for place in [0, 22] {
        let entry = entries.next_entry()?;
        checks.same(entry.map(|entry| entry.place), Some(place));
        let found = wanted(alloc, &mut entries)?;
        checks.same(found.as_slice(), told(place + 1).as_slice());
    }
    checks.holds(entries.next_entry()?.is_none());
    Ok(())
}

#[test]
fn wanted_attributes_are_alike_whatever_a_table_is_ready_for(rt: HostRuntime) -> Result<(), Fail> {
    let mut checks = Checks::new();
    check_values(&mut checks, rt.alloc(), 5).expect(&rt, "refused");
    check_values(&mut checks, rt.alloc(), 4).expect(&rt, "refused");
    checks.result()
}

// implicit constants of DW_AT_call_line, and names: of a subprogram, which is read by runs, and of a variable
const REPEATED: &[u8] =
    b"\x01\x2e\0\x59\x21\x03\x59\x21\0\x03\x19\x59\x21\x09\x03\x08\x59\x21\x08\0\0\x02\x34\0\x59\x21\x03\x59\x21\0\x03\x19\x59\x21\x09\x03\x08\x59\x21\x08\0\0\0";

#[test]
fn attributes_without_bytes_are_wanted_one_by_one(rt: HostRuntime) -> Result<(), Fail> {
    let mut checks = Checks::new();
    let relocations = RelocationMap::new(rt.alloc());
    let abbreviations = Abbreviations::parse(rt.alloc(), REPEATED, 0).expect(&rt, "refused");
    let mut entries = entries_at(b"\x01f\0\x02g\0", &relocations, &abbreviations, 0).expect(
        &rt, "refused",
    );
    for start in [1, 4] {
        entries
            .next_entry()
            .expect(&rt, "refused")
            .expect(&rt, "an entry");
        let found = wanted(rt.alloc(), &mut entries).expect(&rt, "refused");
        let name = StrPlace {
            part: StrPart::Info,
            start,
            len: 1,
        };
        let told = [
            (0x59, AttrValue::Signed(3)),
            (0x59, AttrValue::Signed(0)),
            (0x03, AttrValue::Other),
            (0x59, AttrValue::Signed(9)),
            (0x03, AttrValue::Text(name)),
            (0x59, AttrValue::Signed(8)),
        ];
        checks.same(found.as_slice(), told.as_slice());
    }
    checks.result()
}

#[test]
fn an_entry_of_which_some_was_read_is_passed_over(rt: HostRuntime) -> Result<(), Fail> {
    let mut checks = Checks::new();
    let relocations = RelocationMap::new(rt.alloc());
    let abbreviations = Abbreviations::parse(rt.alloc(), TABLE, 0).expect(&rt, "refused");
    let mut entries = entries_at(INFO, &relocations, &abbreviations, 0).expect(&rt, "refused");
    entries
        .next_entry()
        .expect(&rt, "refused")
        .expect(&rt, "an entry");
    entries
        .next_wanted()
        .expect(&rt, "refused")
        .expect(&rt, "a name");
    entries
        .next_wanted()
        .expect(&rt, "refused")
        .expect(&rt, "an address");
    let spec = *entries.pending().first().expect(&rt, "an attribute");
    checks.same(spec.name, 0x12);
    let second = entries
        .next_entry()
        .expect(&rt, "refused")
        .expect(&rt, "a second entry");
    checks.same(second.place, 22);
    checks.result()
}

// subprograms: one with a name alone, one with an address, and one with a reference
const KINDS: &[u8] =
    b"\x01\x2e\0\x03\x08\0\0\x02\x2e\0\x03\x08\x11\x01\0\0\x03\x2e\0\x47\x13\0\0\0";

// two names, a reference, a name, and a name with an address
const FUNCTIONS: &[u8] = b"\x01a\0\x01b\0\x03\0\0\0\0\x01c\0\x02d\0\0\x10\0\0\0\0\0\0";

#[test]
fn functions_without_addresses_and_references_are_passed_over(rt: HostRuntime) -> Result<(), Fail> {
    let mut checks = Checks::new();
    let relocations = RelocationMap::new(rt.alloc());
    let abbreviations = Abbreviations::parse(rt.alloc(), KINDS, 0).expect(&rt, "refused");
    for (from, place) in [(0, 6), (11, 14)] {
        let mut entries = entries_at(FUNCTIONS, &relocations, &abbreviations, from).expect(
            &rt, "refused",
        );
        entries.pass_over(Passing::Unplaced, 0x2e);
        let entry = entries
            .next_entry()
            .expect(&rt, "refused")
            .expect(&rt, "a function");
        checks.same(entry.place, place);
    }
    checks.result()
}
