//! The values of an entry's attributes.
ghost use Rattle.std.specs.Prelude.{◌≡◌, ◌<◌, ◌+◌, ◌^◌, length, IfSome};
ghost use Rattle.blz_info.specs.Contents.{section_view, StaysIn};
ghost use Rattle.blz_info.specs.Attributes.{form_for, direct_attribute, attribute, passed};

use crate::abbreviations::AttrSpec;
use crate::encoding::Encoding;
use crate::forms::behind::behind;
use crate::forms::form::{Field, Form, Makes, form_of};
use crate::forms::value::{AttrValue, value_by};
use crate::section::Section;
use crate::text::StrBase;
use blz_bytes::uleb_at;
use blz_constants::dwarf;

/// How the form of an attribute is read. Before version 4 offsets had no form of their own, so that a number of the
/// unit's offset size is one at the two attributes that are offsets.
#[tactic(auto, unfolding(crate::specs::Attributes::form_for))]
pub(crate) fn form_for(name: u64, encoding: Encoding, code: u64) -> Option<Form>
    ensures { result ≡ form_for name encoding code }
{
    let offset_size = if encoding.wide {
        dwarf::DW_FORM_data8
    } else {
        dwarf::DW_FORM_data4
    };
    if (name == dwarf::DW_AT_stmt_list || name == dwarf::DW_AT_ranges)
        && encoding.version < 4
        && code == offset_size
    {
        return Some(Form::Numeric(Field::Offset, Makes::SecOffset));
    }
    form_of(code)
}

#[tactic(auto, unfolding(crate::specs::Attributes::direct_attribute))]
fn direct_attribute(
    name: u64,
    code: u64,
    encoding: Encoding,
    base: StrBase,
    section: &Section<'_, '_>,
    at: usize,
) -> Option<(AttrValue, usize)>
    requires { base.start + length section.now.bytes.now < 2 ^ 64 }
    ensures value { result
        ≡ direct_attribute name code encoding base (section_view section.now) at }
    ensures within { IfSome result (λ r. StaysIn section.now.bytes.now at r.1) }
{
    value_by(form_for(name, encoding, code)?, encoding, base, section, at)
}

/// The value of an attribute at a place, and the next place.
#[tactic(auto, unfolding(crate::specs::Attributes::attribute))]
pub(crate) fn attribute(
    spec: AttrSpec,
    encoding: Encoding,
    base: StrBase,
    section: &Section<'_, '_>,
    at: usize,
) -> Option<(AttrValue, usize)>
    requires { base.start + length section.now.bytes.now < 2 ^ 64 }
    ensures value { result ≡ attribute spec encoding base (section_view section.now) at }
    ensures within { IfSome result (λ r. StaysIn section.now.bytes.now at r.1) }
{
    match spec.form {
        dwarf::DW_FORM_implicit_const => Some((AttrValue::Signed(spec.constant), at)),
        dwarf::DW_FORM_indirect => {
            let (inner, next) = uleb_at(section.bytes, at)?;
            direct_attribute(spec.name, inner, encoding, base, section, next)
        }
        form => direct_attribute(spec.name, form, encoding, base, section, at),
    }
}

/// The place behind some attributes.
pub(crate) fn passed(
    specs: &[AttrSpec],
    encoding: Encoding,
    base: StrBase,
    section: &Section<'_, '_>,
    at: usize,
) -> Option<usize>
    requires { base.start + length section.now.bytes.now < 2 ^ 64 }
    ensures value { result ≡ passed specs.now encoding base (section_view section.now) at }
    ensures within { IfSome result (λ n. StaysIn section.now.bytes.now at n) }
{
    let mut place = at;
    for spec in specs {
        let next = behind(*spec, encoding, section, place)?;
        place = next;
    }
    Some(place)
}
