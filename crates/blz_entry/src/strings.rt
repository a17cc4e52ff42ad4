//! Where strings stand.
ghost use Rattle.std.specs.Prelude.{◌≡◌};
ghost use Rattle.blz_info.specs.Contents.{section_view};
ghost use Rattle.blz_info.specs.declared.text.StrPart.TheVariants.{SupStrings};
ghost use Rattle.blz_entry.specs.StringPlaces.{text_in, strings_part, line_str_part, sup_string, indexed_string, string_of};

use crate::root::UnitRoot;
use blz_bytes::zero_ended_at;
use blz_info::{AttrValue, Section, Sections, StrPart, StrPlace, UnitHeader, indexed_offset};

#[tactic(auto, unfolding(crate::specs::StringPlaces::text_in))]
fn text_in(part: StrPart, section: &Section<'_, '_>, offset: u64) -> Option<StrPlace>
    ensures { result ≡ text_in part (section_view section.now) offset }
{
    let start = offset as usize;
    let (text, _) = zero_ended_at(section.bytes, start)?;
    Some(StrPlace {
        part,
        start,
        len: text.len(),
    })
}

fn strings_part(sections: &Sections<'_, '_>) -> StrPart
    ensures { result ≡ strings_part sections.now }
{
    if sections.split {
        StrPart::PackStrings
    } else if sections.sup {
        StrPart::SupStrings
    } else {
        StrPart::Strings
    }
}

fn line_str_part(sections: &Sections<'_, '_>) -> StrPart
    ensures { result ≡ line_str_part sections.now }
{
    if sections.sup {
        StrPart::SupLineStr
    } else {
        StrPart::LineStr
    }
}

fn sup_string(strings: &Option<Section<'_, '_>>, offset: u64) -> Option<StrPlace>
    ensures { result ≡ sup_string strings.now offset }
{
    match strings {
        None => None,
        Some(strings) => supplementary_string(strings, offset),
    }
}

#[tactic(auto, unfolding(crate::specs::StringPlaces::indexed_string))]
fn indexed_string(
    sections: &Sections<'_, '_>,
    header: &UnitHeader,
    root: &UnitRoot,
    index: u64,
) -> Option<StrPlace>
    ensures { result ≡ indexed_string sections.now header.now root.now index }
{
    let offset = indexed_offset(
        header.wide,
        &sections.str_offsets,
        root.str_offsets_base,
        index,
    )?;
    text_in(strings_part(sections), &sections.strings, offset)
}

/// The string of a value (DWARF 5 sections 7.5.5 and 7.26); None exactly where it is none or cannot be read.
#[tactic(auto, unfolding(crate::specs::StringPlaces::string_of))]
pub fn attr_string(
    sections: &Sections<'_, '_>,
    header: &UnitHeader,
    root: &UnitRoot,
    value: AttrValue,
) -> Option<StrPlace>
    ensures { result ≡ string_of sections.now header.now root.now value }
{
    match value {
        AttrValue::Text(place) => Some(place),
        AttrValue::StrRef(offset) => text_in(strings_part(sections), &sections.strings, offset),
        AttrValue::LineStrRef(offset) => text_in(
            line_str_part(sections),
            &sections.line_str,
            offset,
        ),
        AttrValue::SupStr(offset) => {
            if sections.sup {
                None
            } else {
                sup_string(&sections.sup_strings, offset)
            }
        }
        AttrValue::StrIndex(index) => indexed_string(sections, header, root, index),
        _ => None,
    }
}

/// The string at an offset of the supplementary file's `.debug_str`; None exactly where it cannot be read.
pub fn supplementary_string(strings: &Section<'_, '_>, offset: u64) -> Option<StrPlace>
    ensures { result ≡ text_in SupStrings (section_view strings.now) offset }
{
    text_in(StrPart::SupStrings, strings, offset)
}

/// The bytes of a text that take a word of a file's room, where its end is looked for.
const BYTES_A_WORD: usize = 64;

/// What looking for the end of the string of a value took of a file's room, in words: by the string that was found, and by
/// its whole section where none was.
pub fn search_words(sections: &Sections<'_, '_>, value: AttrValue, found: Option<StrPlace>) -> u64 {
    let bytes = match (found, value) {
        (Some(place), _) => place.len,
        (None, AttrValue::StrRef(_) | AttrValue::StrIndex(_)) => sections.strings.bytes.len(),
        (None, AttrValue::LineStrRef(_)) => sections.line_str.bytes.len(),
        (None, AttrValue::SupStr(_)) => match &sections.sup_strings {
            Some(strings) => strings.bytes.len(),
            None => 0,
        },
        (None, _) => 0,
    };
    (bytes / BYTES_A_WORD) as u64
}
