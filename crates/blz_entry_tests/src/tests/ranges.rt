//! Lists of ranges, and sets of address ranges.
use super::small::{header, no_sections, root, section};
use blz_checks::Checks;
use blz_entry::{Aranges, RangeAttributes, Sections, Span};
use blz_relocations::RelocationMap;
use std::test::Fail;

fn span(begin: u64, end: u64) -> Span {
    Span { begin, end }
}

#[test]
fn lists_of_ranges_of_both_kinds_are_read(rt: HostRuntime) -> Result<(), Fail> {
    let mut checks = Checks::new();
    let relocations = RelocationMap::new(rt.alloc());
    let sections = Sections {
        rnglists: section(
            b"\x04\x10\x20\x04\x30\x30\x07\x00\x20\0\0\0\0\0\0\x08\0",
            &relocations,
        ),
        ranges: section(
            b"\x10\0\0\0\0\0\0\0\x20\0\0\0\0\0\0\0\0\0\0\0\0\0\0\0\0\0\0\0\0\0\0\0",
            &relocations,
        ),
        ..no_sections(&relocations)
    };
    let attributes = RangeAttributes {
        ranges_offset: Some(0),
        ..RangeAttributes::default()
    };
    let mut spans = Vec::new(rt.alloc());
    let lists = attributes.for_each_range(&sections, &header(5), &root(0x1000), &mut spans);
    checks.gives(lists, true);
    let pairs = attributes.for_each_range(&sections, &header(4), &root(0), &mut spans);
    checks.gives(pairs, true);
    let want = [span(0x1010, 0x1020), span(0x2000, 0x2008), span(0x10, 0x20)];
    checks.same(spans.as_slice(), want.as_slice());
    checks.same(attributes.bounds(), None);
    checks.result()
}

#[test]
fn a_set_of_address_ranges_tells_its_unit_and_its_ranges(rt: HostRuntime) -> Result<(), Fail> {
    let mut checks = Checks::new();
    let relocations = RelocationMap::new(rt.alloc());
    let bytes =
        b"\x2c\0\0\0\x02\0\x33\0\0\0\x08\0\0\0\0\0\x00\x10\0\0\0\0\0\0\x10\0\0\0\0\0\0\0\0\0\0\0\0\0\0\0\0\0\0\0\0\0\0\0";
    let aranges = section(bytes, &relocations);
    let mut sets = Aranges::new(aranges);
    let mut set = sets.next_set().expect(&rt, "refused").expect(&rt, "a set");
    checks.same((set.unit, set.at, set.end), (0x33, 16, 48));
    let code = Span {
        begin: 0x1000,
        end: 0x1010,
    };
    checks.same(set.next_range(&aranges), Some(code));
    checks.same(set.next_range(&aranges), None);
    checks.holds(sets.next_set().expect(&rt, "refused").is_none());
    checks.result()
}
