//! The debug sections of an image, and its units.
ghost use Rattle.std.specs.Prelude.{◌≡◌, ◌+◌, ◌<◌, ◌^◌, false, length, IfOk, None};
ghost use Rattle.blz_units.specs.BuiltUnits.{AreSupTexts, AreTextsOf, AreWhole, ArePacked};

use blz_elf::{ElfParser, RelocationMap};
use blz_entry::{Abbreviations, Section, Sections, Texts, UnitHeader, UnitHeaders, UnitRoot};
use blz_error::Result;
use std::alloc::Global;

/// The sections of an image that needs no relocation; a missing one is empty.
pub fn sections_of<'s, 'b>(
    alloc: Global,
    image: &'b [u8],
    none: &'s RelocationMap,
) -> Result<Sections<'s, 'b>>
    ensures { IfOk result (λ s. s.shift ≡ 0) }
{
    let mut parser = ElfParser::from_mem(alloc, image, None);
    Ok(Sections {
        abbrev: section(&mut parser, ".debug_abbrev", none)?,
        addr: section(&mut parser, ".debug_addr", none)?,
        aranges: section(&mut parser, ".debug_aranges", none)?,
        info: section(&mut parser, ".debug_info", none)?,
        line: section(&mut parser, ".debug_line", none)?,
        line_str: section(&mut parser, ".debug_line_str", none)?,
        ranges: section(&mut parser, ".debug_ranges", none)?,
        rnglists: section(&mut parser, ".debug_rnglists", none)?,
        strings: section(&mut parser, ".debug_str", none)?,
        str_offsets: section(&mut parser, ".debug_str_offsets", none)?,
        sup_strings: None,
        shift: 0,
        split: false,
        sup: false,
    })
}

/// The same sections, as those of a whole file without a supplementary one.
pub fn alone<'s, 'b>(sections: Sections<'s, 'b>) -> Sections<'s, 'b>
    ensures whole { AreWhole result }
    ensures not_sup { result.sup ≡ false }
    ensures alone { result.sup_strings ≡ None }
{
    Sections {
        sup_strings: None,
        shift: 0,
        split: false,
        sup: false,
        ..sections
    }
}

fn section<'s, 'b>(
    parser: &mut ElfParser<'b>,
    name: &str,
    none: &'s RelocationMap,
) -> Result<Section<'s, 'b>> {
    Ok(Section {
        bytes: parser.data_named(name)?,
        relocations: none,
        order: parser.order()?,
    })
}

/// The headers of all units.
pub fn units_of(alloc: Global, info: Section<'_, '_>) -> Result<Vec<UnitHeader>> {
    let mut headers = UnitHeaders::new(info);
    let mut units = Vec::new(alloc);
    for _ in 0..u64::MAX {
        let Some(header) = headers.next_header()? else {
            break;
        };
        units.push(header)?;
    }
    Ok(units)
}

/// What the first entry of a unit says.
pub fn root_of(alloc: Global, sections: &Sections<'_, '_>, header: &UnitHeader) -> Result<UnitRoot>
    requires { sections.now.shift + length sections.now.info.bytes.now < 2 ^ 64 }
{
    let abbreviations = Abbreviations::parse(alloc, sections.abbrev.bytes, header.abbrev)?;
    UnitRoot::parse(sections, header, &abbreviations)
}

/// The sections that have texts.
pub fn texts_of<'b>(sections: &Sections<'_, 'b>) -> Texts<'b>
    requires { sections.now.sup_strings ≡ None }
    ensures main { AreTextsOf sections.now result }
    ensures packed { ArePacked None result }
    ensures sup { AreSupTexts None result }
{
    Texts {
        info: sections.info.bytes,
        line: sections.line.bytes,
        strings: sections.strings.bytes,
        line_str: sections.line_str.bytes,
        sup_strings: b"",
        pack_info: b"",
        pack_strings: b"",
        sup_info: b"",
        sup_line_str: b"",
    }
}
