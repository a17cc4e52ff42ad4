//! The entries of DWARF debugging information, and what is told of them: strings, addresses, ranges, the root of a unit.
#![tactic(auto)]

mod addresses;
mod aranges;
mod range_list;
mod ranges;
mod root;
mod strings;

pub use addresses::address;
pub use aranges::{ArangeSet, Aranges};
pub use blz_info::{
    Abbreviation, Abbreviations, AttrSpec, AttrValue, Encoding, Entries, Entry, Extent, Field,
    Form, Listed, Makes, Passing, Section, Sections, StrBase, StrPart, StrPlace, Texts, UnitHeader,
    UnitHeaders, UnitKind, Width, address_at, cut, extent_at, fixed_at, form_value, invalid, laws,
    list_unit, no_attribute, offset_at,
};
pub use blz_ranges::Span;
pub use ranges::{RangeAttributes, attr_ranges_offset};
pub use root::UnitRoot;
pub use strings::{attr_string, search_words, supplementary_string};
