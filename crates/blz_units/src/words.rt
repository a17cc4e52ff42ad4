//! How many words of a file's room the units of a file take.
use blz_bytes::uleb_at;
use blz_entry::{Abbreviations, AttrValue, Sections, StrPlace, UnitHeader, UnitRoot, search_words};

/// A unit that is built, where it is kept.
pub(crate) const UNIT_WORDS: u64 = 24;

/// The header of a unit, and what stands beside it for each unit.
pub(crate) const HEADER_WORDS: u64 = 10;

/// A range that is announced, with its owner and its place in the index.
pub(crate) const RANGE_WORDS: u64 = 10;

/// What reading the first entry of a unit takes: a word for each attribute.
pub(crate) fn attribute_words(
    sections: &Sections<'_, '_>,
    header: &UnitHeader,
    abbreviations: &Abbreviations,
) -> u64 {
    let Some((code, _)) = uleb_at(sections.info.bytes, header.entries) else {
        return 0;
    };
    match abbreviations.get(code) {
        Some(abbreviation) => abbreviation.attributes().len() as u64,
        None => 0,
    }
}

/// What looking for the end of a text takes at most.
pub(crate) fn longest_search(sections: &Sections<'_, '_>) -> u64 {
    let strings = search_words(sections, AttrValue::StrRef(0), None);
    let line_strings = search_words(sections, AttrValue::LineStrRef(0), None);
    let sup_strings = search_words(sections, AttrValue::SupStr(0), None);
    strings.max(line_strings).max(sup_strings)
}

fn is_ended(texts: &[u8]) -> bool {
    match texts.last() {
        Some(byte) => *byte == 0,
        None => true,
    }
}

/// Whether each text of some sections has an end.
fn are_ended(sections: &Sections<'_, '_>) -> bool {
    let sup_strings = match &sections.sup_strings {
        Some(strings) => is_ended(strings.bytes),
        None => true,
    };
    is_ended(sections.strings.bytes) && is_ended(sections.line_str.bytes) && sup_strings
}

/// What looking for the end of a name took. Where none was found there may be no such attribute.
fn name_words(sections: &Sections<'_, '_>, name: Option<StrPlace>) -> u64 {
    if name.is_some() {
        return search_words(sections, AttrValue::StrRef(0), name);
    }
    if are_ended(sections) {
        0
    } else {
        longest_search(sections)
    }
}

/// What looking for the ends of the names of a unit took.
pub(crate) fn names_words(sections: &Sections<'_, '_>, root: &UnitRoot) -> u64 {
    name_words(sections, root.name).saturating_add(name_words(sections, root.comp_dir))
}
