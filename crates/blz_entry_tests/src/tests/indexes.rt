//! Strings, addresses and lists of ranges that are found by their index.
use super::small::{header, no_sections, root, section};
use blz_checks::Checks;
use blz_entry::{
    AttrValue, RangeAttributes, Sections, StrPart, StrPlace, Texts, UnitHeader, address,
    attr_ranges_offset, attr_string, supplementary_string,
};
use blz_error::ErrorKind;
use blz_relocations::RelocationMap;
use std::test::Fail;

const STRINGS: &[u8] = b"\0ab\0cde\0";

#[test]
fn a_string_is_found_by_its_index(rt: HostRuntime) -> Result<(), Fail> {
    let mut checks = Checks::new();
    let relocations = RelocationMap::new(rt.alloc());
    let sections = Sections {
        strings: section(STRINGS, &relocations),
        str_offsets: section(b"\x01\0\0\0\x04\0\0\0", &relocations),
        ..no_sections(&relocations)
    };
    let second = StrPlace {
        part: StrPart::Strings,
        start: 4,
        len: 3,
    };
    for (index, place) in [(1, Some(second)), (2, None)] {
        let value = AttrValue::StrIndex(index);
        checks.same(attr_string(&sections, &header(5), &root(0), value), place);
    }
    let texts = Texts {
        info: b"",
        line: b"",
        strings: STRINGS,
        line_str: b"",
        sup_strings: b"",
        pack_info: b"",
        pack_strings: b"",
        sup_info: b"",
        sup_line_str: b"",
    };
    checks.same(texts.get(second), b"cde".as_slice());
    checks.result()
}

#[test]
fn a_string_of_the_supplementary_file_is_found_there(rt: HostRuntime) -> Result<(), Fail> {
    let mut checks = Checks::new();
    let relocations = RelocationMap::new(rt.alloc());
    let strings = section(STRINGS, &relocations);
    let sections = Sections {
        sup_strings: Some(strings),
        ..no_sections(&relocations)
    };
    let elsewhere = Some(StrPlace {
        part: StrPart::SupStrings,
        start: 1,
        len: 2,
    });
    let value = AttrValue::SupStr(1);
    checks.same(
        attr_string(&sections, &header(5), &root(0), value),
        elsewhere,
    );
    checks.same(supplementary_string(&strings, 1), elsewhere);
    checks.result()
}

#[test]
fn an_address_is_found_by_its_index(rt: HostRuntime) -> Result<(), Fail> {
    let mut checks = Checks::new();
    let relocations = RelocationMap::new(rt.alloc());
    let sections = Sections {
        addr: section(
            b"\0\0\0\0\0\0\0\0\x05\0\0\0\0\0\0\0\x07\0\0\0\0\0\0\0",
            &relocations,
        ),
        ..no_sections(&relocations)
    };
    checks.gives(address(&sections, &header(5), &root(0), 1), 7);
    checks.holds(address(&sections, &header(5), &root(0), 2).is_err());
    checks.result()
}

// sections of which all but the lists of ranges are empty
fn lists_alone<'s, 'b>(rnglists: &'b [u8], relocations: &'s RelocationMap) -> Sections<'s, 'b> {
    Sections {
        rnglists: section(rnglists, relocations),
        ..no_sections(relocations)
    }
}

#[test]
fn a_list_of_ranges_is_found_by_its_index(rt: HostRuntime) -> Result<(), Fail> {
    let mut checks = Checks::new();
    let relocations = RelocationMap::new(rt.alloc());
    let sections = lists_alone(b"\0\0\0\0\x08\0\0\0", &relocations);
    let found = attr_ranges_offset(
        &sections,
        &header(5),
        &root(0),
        AttrValue::RangeIndex(0),
    ).expect(&rt, "refused");
    checks.same(found, Some(12));
    checks.result()
}

#[test]
fn a_list_past_the_greatest_offset_is_named_and_has_no_value(rt: HostRuntime) -> Result<(), Fail> {
    let mut checks = Checks::new();
    let relocations = RelocationMap::new(rt.alloc());
    let sections = lists_alone(b"\0\0\0\0\xff\xff\xff\xff\xff\xff\xff\xff", &relocations);
    let wide = UnitHeader {
        wide: true,
        ..header(5)
    };
    let root = root(0);
    let list = AttrValue::RangeIndex(0);
    match attr_ranges_offset(&sections, &wide, &root, list) {
        Ok(_) => checks.holds(false),
        Err(e) => checks.same(e.kind(), ErrorKind::InvalidDwarf),
    }
    // DW_AT_ranges
    let named = RangeAttributes::default()
        .with(&sections, &wide, &root, 0x55, list)
        .expect(&rt, "refused");
    let mut spans = Vec::new(rt.alloc());
    match named.for_each_range(&sections, &wide, &root, &mut spans) {
        Ok(_) => checks.holds(false),
        Err(e) => checks.same(e.kind(), ErrorKind::InvalidDwarf),
    }
    // the last of several counts
    let later = named
        .with(&sections, &wide, &root, 0x55, AttrValue::SecOffset(12))
        .expect(&rt, "refused");
    checks.holds(
        !later
            .for_each_range(&sections, &wide, &root, &mut spans)
            .expect(&rt, "refused"),
    );
    checks.result()
}
