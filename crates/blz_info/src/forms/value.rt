//! Values of attributes, and the forms that they are read by.
ghost use Rattle.std.specs.Prelude.{◌≡◌, ◌≤◌, ◌<◌, ◌+◌, ◌^◌, length, IfSome};
ghost use Rattle.blz_info.specs.Contents.{section_view, StaysIn};
ghost use Rattle.blz_info.specs.Forms.{made, text_here, value_by, direct_value, form_value, udata};

use crate::encoding::Encoding;
use crate::forms::field::field_at;
use crate::forms::form::{Form, Makes, form_of};
use crate::section::Section;
use crate::text::{StrBase, StrPart, StrPlace};
use blz_bytes::{sleb_at, uleb_at, zero_ended_at};
use blz_constants::dwarf;

/// The value of an attribute, by what it means and not by how it is stored (DWARF 5 section 7.5.5).
#[derive(Clone, Copy, Debug, PartialEq, Eq)]
pub enum AttrValue {
    /// An address.
    Addr(u64),
    /// An index into the unit's addresses.
    AddrIndex(u64),
    /// A constant without a sign.
    Const(u64),
    /// A constant with a sign.
    Signed(i64),
    /// A text that stands at the attribute.
    Text(StrPlace),
    /// An offset in `.debug_str`.
    StrRef(u64),
    /// An offset in `.debug_line_str`.
    LineStrRef(u64),
    /// An index into the unit's string offsets.
    StrIndex(u64),
    /// An offset in the `.debug_str` of the supplementary file.
    SupStr(u64),
    /// An entry by its offset from the unit's start.
    UnitRef(u64),
    /// An entry by its offset in `.debug_info`.
    InfoRef(u64),
    /// An entry by its offset in the `.debug_info` of the supplementary file.
    SupRef(u64),
    /// An offset in another section.
    SecOffset(u64),
    /// An index into the unit's range lists.
    RangeIndex(u64),
    /// A value of another kind, which is passed over.
    Other,
}

impl AttrValue {
    /// The value as a number without a sign: that of a constant that is not negative.
    pub fn udata(&self) -> Option<u64>
        ensures { result ≡ udata self.now }
    {
        match *self {
            AttrValue::Const(number) => Some(number),
            AttrValue::Signed(number) if number >= 0 => Some(number as u64),
            _ => None,
        }
    }
}

fn made(makes: Makes, number: u64) -> AttrValue
    ensures { result ≡ made makes number }
{
    match makes {
        Makes::Addr => AttrValue::Addr(number),
        Makes::AddrIndex => AttrValue::AddrIndex(number),
        Makes::Const => AttrValue::Const(number),
        Makes::StrRef => AttrValue::StrRef(number),
        Makes::LineStrRef => AttrValue::LineStrRef(number),
        Makes::StrIndex => AttrValue::StrIndex(number),
        Makes::SupStr => AttrValue::SupStr(number),
        Makes::UnitRef => AttrValue::UnitRef(number),
        Makes::InfoRef => AttrValue::InfoRef(number),
        Makes::SupRef => AttrValue::SupRef(number),
        Makes::SecOffset => AttrValue::SecOffset(number),
        Makes::RangeIndex => AttrValue::RangeIndex(number),
        Makes::Other => AttrValue::Other,
    }
}

#[tactic(auto, unfolding(crate::specs::Forms::text_here))]
fn text_here(base: StrBase, bytes: &[u8], at: usize) -> Option<(AttrValue, usize)>
    requires { base.start + length bytes.now < 2 ^ 64 }
    ensures value { result ≡ text_here base bytes.now at }
    ensures within { IfSome result (λ r. (at ≤ r.1) × (r.1 ≤ length bytes.now)) }
{
    let (text, next) = zero_ended_at(bytes, at)?;
    let place = StrPlace {
        part: base.part,
        start: base.start + at,
        len: text.len(),
    };
    Some((AttrValue::Text(place), next))
}

/// What a form reads at a place, and the next place.
#[inline(always)]
#[tactic(auto, unfolding(crate::specs::Forms::value_by))]
pub(crate) fn value_by(
    form: Form,
    encoding: Encoding,
    base: StrBase,
    section: &Section<'_, '_>,
    at: usize,
) -> Option<(AttrValue, usize)>
    requires { base.start + length section.now.bytes.now < 2 ^ 64 }
    ensures value { result ≡ value_by form encoding base (section_view section.now) at }
    ensures within { IfSome result (λ r. StaysIn section.now.bytes.now at r.1) }
{
    // each result is taken apart, since one that a call writes would stand in memory
    match form {
        Form::Numeric(field, makes) => {
            let (number, next) = field_at(field, encoding, section, at)?;
            Some((made(makes, number), next))
        }
        Form::Signed => {
            let (number, next) = sleb_at(section.bytes, at)?;
            Some((AttrValue::Signed(number), next))
        }
        Form::Text => {
            let (value, next) = text_here(base, section.bytes, at)?;
            Some((value, next))
        }
    }
}

#[tactic(auto, unfolding(crate::specs::Forms::direct_value))]
fn direct_value(
    code: u64,
    encoding: Encoding,
    base: StrBase,
    section: &Section<'_, '_>,
    at: usize,
) -> Option<(AttrValue, usize)>
    requires { base.start + length section.now.bytes.now < 2 ^ 64 }
    ensures value { result ≡ direct_value code encoding base (section_view section.now) at }
    ensures within { IfSome result (λ r. StaysIn section.now.bytes.now at r.1) }
{
    value_by(form_of(code)?, encoding, base, section, at)
}

/// The value of a form at a place of a section, and the next place (DWARF 5 section 7.5.6); None exactly where the
/// form is not known or its bytes are not whole. A text is placed in `part`, counted from the section's first byte.
#[tactic(auto, unfolding(crate::specs::Forms::form_value))]
pub fn form_value(
    section: &Section<'_, '_>,
    part: StrPart,
    version: u16,
    wide: bool,
    address_size: u8,
    form: u64,
    at: usize,
) -> Option<(AttrValue, usize)>
    ensures value { result
        ≡ form_value form (record { version = version; wide = wide; address_size = address_size })
        (record { part = part; start = 0 }) (section_view section.now) at }
    ensures within { IfSome result (λ r. StaysIn section.now.bytes.now at r.1) }
{
    let encoding = Encoding {
        version,
        wide,
        address_size,
    };
    let base = StrBase { part, start: 0 };
    if form == dwarf::DW_FORM_indirect {
        let (inner, next) = uleb_at(section.bytes, at)?;
        direct_value(inner, encoding, base, section, next)
    } else {
        direct_value(form, encoding, base, section, at)
    }
}
