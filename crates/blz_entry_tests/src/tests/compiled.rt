//! Units that a compiler wrote.
ghost use Rattle.std.specs.Prelude.{◌≡◌};

use super::samples::{LINE_STR, SAMPLES, Sample};
use super::small::{no_sections, section};
use blz_checks::Checks;
use blz_entry::{
    Abbreviations, AttrValue, Sections, Span, StrPart, StrPlace, UnitHeaders, UnitRoot, list_unit,
};
use blz_error::{IntoError, Result};
use blz_relocations::RelocationMap;
use std::alloc::Global;
use std::test::Fail;

// the sections of a compiled unit
fn sections<'s>(sample: &Sample, relocations: &'s RelocationMap) -> Sections<'s, 'static>
    ensures { result.shift ≡ 0 }
{
    Sections {
        info: section(sample.info, relocations),
        line_str: section(LINE_STR, relocations),
        ..no_sections(relocations)
    }
}

#[test]
fn compiled_units_of_each_version_tell_their_ranges(
    rt: HostRuntime,
) -> std::result::Result<(), Fail> {
    let mut checks = Checks::new();
    let relocations = RelocationMap::new(rt.alloc());
    for sample in SAMPLES {
        let sections = sections(&sample, &relocations);
        let mut headers = UnitHeaders::new(sections.info);
        let header = headers
            .next_header()
            .expect(&rt, "refused")
            .expect(&rt, "a unit");
        checks.same(header.version, sample.version);
        checks.holds(headers.next_header().expect(&rt, "refused").is_none());
        let abbreviations = Abbreviations::parse(rt.alloc(), sample.abbrev, header.abbrev).expect(
            &rt, "refused",
        );
        let root = UnitRoot::parse(&sections, &header, &abbreviations).expect(&rt, "refused");
        checks.same(root.low_pc, 0x401000);
        let mut spans = Vec::new(rt.alloc());
        checks.holds(
            root.ranges
                .for_each_range(&sections, &header, &root, &mut spans)
                .expect(&rt, "refused"),
        );
        let code = Span {
            begin: 0x401000,
            end: 0x40100f,
        };
        checks.same(spans.as_slice(), [code].as_slice());
    }
    checks.result()
}

// how many functions below the root have the name at a place of one byte
fn functions_named(alloc: Global, sample: &Sample) -> Result<usize> {
    let relocations = RelocationMap::new(alloc);
    let sections = sections(sample, &relocations);
    let header = UnitHeaders::new(sections.info)
        .next_header()?
        .ok_or_invalid_data(|| "no unit")?;
    let abbreviations = Abbreviations::parse(alloc, sample.abbrev, header.abbrev)?;
    let name = AttrValue::Text(StrPlace {
        part: StrPart::Info,
        start: sample.name,
        len: 1,
    });
    let mut found = 0usize;
    for listed in list_unit(alloc, sections, header, &abbreviations)? {
        let named = listed.attributes.iter().any(|a| a.0 == 0x03 && a.1 == name);
        if listed.entry.tag == 0x2e && listed.entry.depth == 1 && named {
            found = found.saturating_add(1);
        }
    }
    Ok(found)
}

#[test]
fn compiled_units_of_each_version_tell_their_function(
    rt: HostRuntime,
) -> std::result::Result<(), Fail> {
    let mut checks = Checks::new();
    for sample in SAMPLES {
        checks.gives(functions_named(rt.alloc(), &sample), 1);
    }
    checks.result()
}
