//! The place behind an attribute, without its value.
ghost use Rattle.std.specs.Prelude.{◌≡◌, ◌≤◌, length, IfSome, option_map};
ghost use Rattle.blz_info.specs.Contents.{bytes_in, field_at, section_view, StaysIn};
ghost use Rattle.blz_info.specs.Sizes.{address_len, size_of, over, behind_form, behind_code, behind};

use crate::abbreviations::AttrSpec;
use crate::encoding::Encoding;
use crate::forms::field::{field_at, offset_len, skip};
use crate::forms::form::{Field, Form, Width, form_of};
use crate::section::Section;
use blz_bytes::{sleb_at, uleb_at, zero_ended_at};
use blz_constants::dwarf;

fn bytes_in(width: Width) -> usize
    ensures value { result ≡ bytes_in width }
    ensures few { result ≤ 8 }
{
    match width {
        Width::One => 1,
        Width::Two => 2,
        Width::Three => 3,
        Width::Four => 4,
        Width::Eight => 8,
    }
}

fn address_len(size: u8) -> Option<usize>
    ensures { result ≡ address_len size }
{
    if size == 4 || size == 8 {
        Some(size as usize)
    } else {
        None
    }
}

/// The bytes of a field; None where its own bytes tell them, or no address can be read.
pub(crate) fn size_of(field: Field, encoding: Encoding) -> Option<usize>
    ensures { result ≡ size_of field encoding }
{
    match field {
        Field::Nothing => Some(0),
        Field::Fixed(width) => Some(bytes_in(width)),
        Field::Address => address_len(encoding.address_size),
        Field::Offset => Some(offset_len(encoding.wide) as usize),
        Field::RefAddress => {
            if encoding.version == 2 {
                address_len(encoding.address_size)
            } else {
                Some(offset_len(encoding.wide) as usize)
            }
        }
        Field::Sixteen => Some(16),
        Field::Uleb | Field::Block(_) | Field::UlebBlock => None,
    }
}

/// The place behind so many bytes.
#[inline(always)]
#[tactic(auto, unfolding(crate::specs::Sizes::over, blz_model::specs::Reads::passed_over))]
pub(crate) fn over(size: usize, bytes: &[u8], at: usize) -> Option<usize>
    ensures value { result ≡ over size bytes.now at }
    ensures within { IfSome result (λ n. StaysIn bytes.now at n) }
{
    if size == 0 {
        return Some(at);
    }
    if at > bytes.len() || bytes.len() - at < size {
        return None;
    }
    Some(at + size)
}

/// The same from a place among the bytes or right behind them.
#[inline(always)]
#[tactic(auto, unfolding(crate::specs::Sizes::over, blz_model::specs::Reads::passed_over))]
pub(crate) fn over_from(size: usize, bytes: &[u8], at: usize) -> Option<usize>
    requires { at ≤ length bytes.now }
    ensures value { result ≡ over size bytes.now at }
    ensures within { IfSome result (λ n. StaysIn bytes.now at n) }
{
    if bytes.len() - at < size {
        return None;
    }
    Some(at + size)
}

/// The place behind what a field reads.
#[tactic(auto, unfolding(crate::specs::Contents::field_at, crate::specs::Contents::block))]
fn behind_field(
    field: Field,
    encoding: Encoding,
    section: &Section<'_, '_>,
    at: usize,
) -> Option<usize>
    ensures value { result
        ≡ option_map (λ r. r.1) (field_at field encoding (section_view section.now) at) }
    ensures within { IfSome result (λ n. StaysIn section.now.bytes.now at n) }
{
    if let Some(size) = size_of(field, encoding) {
        return over(size, section.bytes, at);
    }
    // most of those whose bytes tell their size are expressions
    if let Field::UlebBlock = field {
        let (count, start) = uleb_at(section.bytes, at)?;
        let (_, next) = skip(count, section.bytes, start)?;
        return Some(next);
    }
    let (_, next) = field_at(field, encoding, section, at)?;
    Some(next)
}

/// The place behind what a form reads.
#[tactic(auto, unfolding(crate::specs::Sizes::behind_form))]
pub(crate) fn behind_form(
    form: Form,
    encoding: Encoding,
    section: &Section<'_, '_>,
    at: usize,
) -> Option<usize>
    ensures value { result ≡ behind_form form encoding (section_view section.now) at }
    ensures within { IfSome result (λ n. StaysIn section.now.bytes.now at n) }
{
    match form {
        Form::Numeric(field, _) => behind_field(field, encoding, section, at),
        Form::Signed => {
            let (_, next) = sleb_at(section.bytes, at)?;
            Some(next)
        }
        Form::Text => {
            let (_, next) = zero_ended_at(section.bytes, at)?;
            Some(next)
        }
    }
}

#[tactic(auto, unfolding(crate::specs::Sizes::behind_code))]
fn behind_code(code: u64, encoding: Encoding, section: &Section<'_, '_>, at: usize) -> Option<usize>
    ensures value { result ≡ behind_code code encoding (section_view section.now) at }
    ensures within { IfSome result (λ n. StaysIn section.now.bytes.now at n) }
{
    behind_form(form_of(code)?, encoding, section, at)
}

/// The place behind an attribute; None exactly where it has no value.
#[tactic(auto, unfolding(crate::specs::Sizes::behind))]
pub(crate) fn behind(
    spec: AttrSpec,
    encoding: Encoding,
    section: &Section<'_, '_>,
    at: usize,
) -> Option<usize>
    ensures value { result ≡ behind spec encoding (section_view section.now) at }
    ensures within { IfSome result (λ n. StaysIn section.now.bytes.now at n) }
{
    match spec.form {
        dwarf::DW_FORM_implicit_const => Some(at),
        dwarf::DW_FORM_indirect => {
            let (inner, next) = uleb_at(section.bytes, at)?;
            behind_code(inner, encoding, section, next)
        }
        code => behind_code(code, encoding, section, at),
    }
}
