//! What stands in `.debug_info`: headers of units, abbreviations, forms, and the entries one after the other.
#![tactic(auto)]

mod abbreviations;
mod attributes;
mod encoding;
mod entries;
mod extent;
mod fault;
mod forms;
pub mod laws;
mod listing;
mod section;
mod text;
mod units;
mod walking;

pub use abbreviations::{Abbreviation, Abbreviations, AttrSpec};
pub use encoding::Encoding;
pub use entries::{Entries, Entry};
pub use extent::{Extent, extent_at};
pub use fault::{invalid, no_attribute};
pub use forms::field::{address_at, fixed_at, indexed_address, indexed_offset, offset_at};
pub use forms::form::{Field, Form, Makes, Width};
pub use forms::value::{AttrValue, form_value};
pub use listing::{Listed, list_unit};
pub use section::{Section, Sections, cut};
pub use text::{StrBase, StrPart, StrPlace, Texts};
pub use units::{UnitHeader, UnitHeaders, UnitKind, is_address_size};
pub use walking::passing::Passing;
