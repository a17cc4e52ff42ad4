//! Fields of a section: numbers, addresses, offsets and blocks.
ghost use Rattle.std.specs.Prelude.{◌≡◌, ◌≤◌, ◌<◌, ◌+◌, ◌*◌, ◌^◌, length, IfSome, MatchOption, option_map};
ghost use Rattle.blz_model.specs.Reads.{number};
ghost use Rattle.blz_info.specs.Contents.{address_at, bytes_in, field_at, moved_number, offset_at, offset_len, section_view, skipped, StaysIn};

use crate::encoding::Encoding;
use crate::forms::form::{Field, Width};
use crate::section::Section;
use blz_bytes::{number_at, u8_at, u16_at, u32_at, u64_at, uleb_at};

/// A number of so many bytes.
#[inline(always)]
#[tactic(auto, using(crate::proofs::Bytes::number_of_one))]
pub fn fixed_at(width: Width, section: &Section<'_, '_>, at: usize) -> Option<(u64, usize)>
    ensures value { result ≡ number section.now.order (bytes_in width) section.now.bytes.now at }
    ensures within { IfSome result (λ r. (at < r.1) × (r.1 ≤ length section.now.bytes.now)) }
{
    // each result is taken apart, since one that a call writes would stand in memory
    match width {
        Width::One => {
            let (value, next) = u8_at(section.bytes, at)?;
            Some((u64::from(value), next))
        }
        Width::Two => {
            let (value, next) = u16_at(section.bytes, at, section.order)?;
            Some((u64::from(value), next))
        }
        Width::Three => {
            let (value, next) = number_at(section.bytes, at, 3, section.order)?;
            Some((value, next))
        }
        Width::Four => {
            let (value, next) = u32_at(section.bytes, at, section.order)?;
            Some((u64::from(value), next))
        }
        Width::Eight => {
            let (value, next) = u64_at(section.bytes, at, section.order)?;
            Some((value, next))
        }
    }
}

/// A number of so many bytes, relocated.
#[inline(always)]
#[tactic(auto, unfolding(crate::specs::Contents::moved_number))]
fn moved_at(width: Width, section: &Section<'_, '_>, at: usize) -> Option<(u64, usize)>
    ensures value { result ≡ moved_number (bytes_in width) (section_view section.now) at }
    ensures within { IfSome result (λ r. (at < r.1) × (r.1 ≤ length section.now.bytes.now)) }
{
    let (value, next) = fixed_at(width, section, at)?;
    Some((section.relocations.relocate(at as u64, value), next))
}

/// An address of four or eight bytes.
#[inline(always)]
#[tactic(auto, unfolding(crate::specs::Contents::address_at))]
pub fn address_at(address_size: u8, section: &Section<'_, '_>, at: usize) -> Option<(u64, usize)>
    ensures value { result ≡ address_at address_size (section_view section.now) at }
    ensures within { IfSome result (λ r. (at < r.1) × (r.1 ≤ length section.now.bytes.now)) }
{
    match address_size {
        4 => moved_at(Width::Four, section, at),
        8 => moved_at(Width::Eight, section, at),
        _ => None,
    }
}

/// An offset of the unit's width.
#[inline(always)]
#[tactic(auto, unfolding(crate::specs::Contents::offset_at))]
pub fn offset_at(wide: bool, section: &Section<'_, '_>, at: usize) -> Option<(u64, usize)>
    ensures value { result ≡ offset_at wide (section_view section.now) at }
    ensures within { IfSome result (λ r. (at < r.1) × (r.1 ≤ length section.now.bytes.now)) }
{
    if wide {
        moved_at(Width::Eight, section, at)
    } else {
        moved_at(Width::Four, section, at)
    }
}

/// So many bytes that are passed over.
#[inline(always)]
#[tactic(auto, unfolding(crate::specs::Contents::skipped))]
pub(crate) fn skip(count: u64, bytes: &[u8], at: usize) -> Option<(u64, usize)>
    ensures value { result ≡ skipped count bytes.now at }
    ensures within { IfSome result (λ r. (at ≤ r.1) × (r.1 ≤ length bytes.now)) }
{
    if at > bytes.len() || ((bytes.len() - at) as u64) < count {
        return None;
    }
    Some((0, at + count as usize))
}

/// What a field reads.
#[inline(always)]
#[tactic(auto, unfolding(crate::specs::Contents::field_at, crate::specs::Contents::block))]
pub(crate) fn field_at(
    field: Field,
    encoding: Encoding,
    section: &Section<'_, '_>,
    at: usize,
) -> Option<(u64, usize)>
    ensures value { result ≡ field_at field encoding (section_view section.now) at }
    ensures within { IfSome result (λ r. StaysIn section.now.bytes.now at r.1) }
{
    // each result is taken apart, since one that a call writes would stand in memory
    match field {
        Field::Nothing => Some((0, at)),
        Field::Fixed(width) => fixed_at(width, section, at),
        Field::Address => address_at(encoding.address_size, section, at),
        Field::Offset => offset_at(encoding.wide, section, at),
        Field::RefAddress => {
            if encoding.version == 2 {
                address_at(encoding.address_size, section, at)
            } else {
                offset_at(encoding.wide, section, at)
            }
        }
        Field::Uleb => {
            let (value, next) = uleb_at(section.bytes, at)?;
            Some((value, next))
        }
        Field::Sixteen => skip(16, section.bytes, at),
        Field::Block(width) => {
            let (count, next) = fixed_at(width, section, at)?;
            skip(count, section.bytes, next)
        }
        Field::UlebBlock => {
            let (count, next) = uleb_at(section.bytes, at)?;
            skip(count, section.bytes, next)
        }
    }
}

/// The place of an item of a table by its index; None where it passes the greatest number.
fn nth_place(base: u64, index: u64, size: u8) -> Option<usize>
    ensures { MatchOption result (2 ^ 64 ≤ base + index * size)
        (λ place. place ≡ base + index * size) }
{
    let place = base.checked_add(index.checked_mul(u64::from(size))?)?;
    Some(place as usize)
}

pub(crate) fn offset_len(wide: bool) -> u8
    ensures { result ≡ offset_len wide }
{
    if wide { 8 } else { 4 }
}

/// The offset at an index of a table that begins at a base.
pub fn indexed_offset(wide: bool, section: &Section<'_, '_>, base: u64, index: u64) -> Option<u64>
    ensures { result ≡ option_map (λ r. r.0)
        (offset_at wide (section_view section.now) (base + index * offset_len wide)) }
{
    let place = nth_place(base, index, offset_len(wide))?;
    let (offset, _) = offset_at(wide, section, place)?;
    Some(offset)
}

/// The address at an index of a table that begins at a base.
pub fn indexed_address(
    address_size: u8,
    section: &Section<'_, '_>,
    base: u64,
    index: u64,
) -> Option<u64>
    ensures { result ≡ option_map (λ r. r.0)
        (address_at address_size (section_view section.now) (base + index * address_size)) }
{
    let place = nth_place(base, index, address_size)?;
    let (address, _) = address_at(address_size, section, place)?;
    Some(address)
}
