//! Units and their headers.
ghost use Rattle.std.specs.Prelude.{◌≡◌, ◌≤◌, ◌<◌, length, IfSome, IfOk};
ghost use Rattle.blz_model.specs.Part.{Exactly};
ghost use Rattle.blz_info.specs.Marks.{or_invalid};
ghost use Rattle.blz_info.specs.Contents.{section_view, StaysIn};
ghost use Rattle.blz_info.specs.Headers.{encoding_of, kind_of, is_address_size, type_fields, id_at, header_of_4, header_of_5, header_in, header_at, next_unit, behind};

use crate::encoding::Encoding;
use crate::extent::{Extent, extent_at};
use crate::fault::invalid;
use crate::forms::field::{fixed_at, offset_at};
use crate::forms::form::Width;
use crate::section::{Section, cut};
use blz_bytes::{u8_at, u16_at, u64_at};
use blz_constants::dwarf;
use blz_error::Result;
use std::marker::Model;

/// What a unit holds (DWARF 5 section 7.5.1).
#[derive(Clone, Copy, Debug, PartialEq, Eq)]
pub enum UnitKind {
    /// `DW_UT_compile`, and every unit of versions 2 to 4.
    Compile,
    /// `DW_UT_type`
    TypeUnit,
    /// `DW_UT_partial`
    Partial,
    /// `DW_UT_skeleton`
    Skeleton,
    /// `DW_UT_split_compile`
    SplitCompile,
    /// `DW_UT_split_type`
    SplitType,
}

/// The header of a unit (DWARF 5 section 7.5.1). Places count from the section's first byte.
#[derive(Clone, Copy)]
pub struct UnitHeader {
    /// Where the unit begins.
    pub start: usize,
    /// Where its entries begin.
    pub entries: usize,
    /// Where it ends.
    pub end: usize,
    /// The DWARF version, 2 to 5.
    pub version: u16,
    /// Offsets have eight bytes, and else four.
    pub wide: bool,
    /// The bytes of an address, 4 or 8.
    pub address_size: u8,
    /// What the unit holds.
    pub kind: UnitKind,
    /// Where its abbreviations begin in `.debug_abbrev`.
    pub abbrev: u64,
    /// The id that joins a skeleton and its split unit, and else 0.
    pub id: u64,
}

impl UnitHeader {
    /// What the sizes of the unit's fields depend on.
    pub fn encoding(&self) -> Encoding
        ensures { result ≡ encoding_of self.now }
    {
        Encoding {
            version: self.version,
            wide: self.wide,
            address_size: self.address_size,
        }
    }
}

fn kind_of(code: u8) -> Option<UnitKind>
    ensures { result ≡ kind_of code }
{
    match code {
        dwarf::DW_UT_compile => Some(UnitKind::Compile),
        dwarf::DW_UT_type => Some(UnitKind::TypeUnit),
        dwarf::DW_UT_partial => Some(UnitKind::Partial),
        dwarf::DW_UT_skeleton => Some(UnitKind::Skeleton),
        dwarf::DW_UT_split_compile => Some(UnitKind::SplitCompile),
        dwarf::DW_UT_split_type => Some(UnitKind::SplitType),
        _ => None,
    }
}

/// Addresses have four or eight bytes.
pub fn is_address_size(size: u8) -> bool
    ensures { result ≡ is_address_size size }
{
    size == 4 || size == 8
}

#[tactic(auto, unfolding(crate::specs::Headers::type_fields))]
fn type_fields(wide: bool, unit: &Section<'_, '_>, at: usize) -> Option<(u64, usize)>
    ensures value { result ≡ type_fields wide (section_view unit.now) at }
    ensures within { IfSome result (λ r. (at ≤ r.1) × (r.1 ≤ length unit.now.bytes.now)) }
{
    let (_, next) = u64_at(unit.bytes, at, unit.order)?;
    let width = if wide { Width::Eight } else { Width::Four };
    let (_, next) = fixed_at(width, unit, next)?;
    Some((0, next))
}

#[tactic(auto, unfolding(crate::specs::Headers::id_at))]
fn id_at(kind: UnitKind, wide: bool, unit: &Section<'_, '_>, at: usize) -> Option<(u64, usize)>
    ensures value { result ≡ id_at kind wide (section_view unit.now) at }
    ensures within { IfSome result (λ r. StaysIn unit.now.bytes.now at r.1) }
{
    match kind {
        UnitKind::Compile | UnitKind::Partial => Some((0, at)),
        UnitKind::Skeleton | UnitKind::SplitCompile => u64_at(unit.bytes, at, unit.order),
        UnitKind::TypeUnit | UnitKind::SplitType => type_fields(wide, unit, at),
    }
}

#[tactic(auto, unfolding(crate::specs::Headers::header_of_4))]
fn header_of_4(
    version: u16,
    start: usize,
    extent: Extent,
    unit: &Section<'_, '_>,
    at: usize,
) -> Option<UnitHeader>
    ensures value { result ≡ header_of_4 version start extent (section_view unit.now) at }
    ensures within { IfSome result (λ h. (h.start ≡ start) × (at ≤ h.entries)
        × (h.entries ≤ length unit.now.bytes.now) × (h.end ≡ extent.end)) }
{
    let (table, next) = offset_at(extent.wide, unit, at)?;
    let (size, next) = u8_at(unit.bytes, next)?;
    if !is_address_size(size) {
        return None;
    }
    Some(UnitHeader {
        start,
        entries: next,
        end: extent.end,
        version,
        wide: extent.wide,
        address_size: size,
        kind: UnitKind::Compile,
        abbrev: table,
        id: 0,
    })
}

#[tactic(auto, unfolding(crate::specs::Headers::header_of_5))]
fn header_of_5(
    start: usize,
    extent: Extent,
    unit: &Section<'_, '_>,
    at: usize,
) -> Option<UnitHeader>
    ensures value { result ≡ header_of_5 start extent (section_view unit.now) at }
    ensures within { IfSome result (λ h. (h.start ≡ start) × (at ≤ h.entries)
        × (h.entries ≤ length unit.now.bytes.now) × (h.end ≡ extent.end)) }
{
    let (code, next) = u8_at(unit.bytes, at)?;
    let kind = kind_of(code)?;
    let (size, next) = u8_at(unit.bytes, next)?;
    let (table, next) = offset_at(extent.wide, unit, next)?;
    let (id, next) = id_at(kind, extent.wide, unit, next)?;
    if !is_address_size(size) {
        return None;
    }
    Some(UnitHeader {
        start,
        entries: next,
        end: extent.end,
        version: 5,
        wide: extent.wide,
        address_size: size,
        kind,
        abbrev: table,
        id,
    })
}

#[tactic(auto, unfolding(crate::specs::Headers::header_in))]
fn header_in(start: usize, extent: Extent, unit: &Section<'_, '_>, at: usize) -> Option<UnitHeader>
    ensures value { result ≡ header_in start extent (section_view unit.now) at }
    ensures within { IfSome result (λ h. (h.start ≡ start) × (at ≤ h.entries)
        × (h.entries ≤ length unit.now.bytes.now) × (h.end ≡ extent.end)) }
{
    let (version, next) = u16_at(unit.bytes, at, unit.order)?;
    match version {
        5 => header_of_5(start, extent, unit, next),
        2..=4 => header_of_4(version, start, extent, unit, next),
        _ => None,
    }
}

#[tactic(auto, unfolding(crate::specs::Headers::header_at))]
fn header_at(info: &Section<'_, '_>, at: usize) -> Option<UnitHeader>
    ensures value { result ≡ header_at (section_view info.now) at }
    ensures within { IfSome result (λ h. (h.start ≡ at) × (at < h.entries) × (h.entries ≤ h.end)
        × (h.end ≤ length info.now.bytes.now)) }
{
    let (extent, next) = extent_at(info, at)?;
    let unit = cut(info, extent.end);
    header_in(at, extent, &unit, next)
}

/// The headers of the units of a section, one after the other.
#[derive(Drop)]
pub struct UnitHeaders<'s, 'b> {
    info: Section<'s, 'b>,
    place: usize,
}

impl<'s, 'b> Model for UnitHeaders<'s, 'b> {
    ghost use Rattle.blz_info.specs.Contents.{section_view, StaysIn};
    ghost use Rattle.blz_info.specs.Headers.{UnitList};
    ghost use Rattle.blz_info.specs.Codes.{unit_list_code};

    ghost Value = { UnitList };

    ghost coded = { unit_list_code };

    ghost view = { λ u. record { section = section_view u.info; place = u.place } };
}

impl<'s, 'b> UnitHeaders<'s, 'b> {
    /// The units of `.debug_info`.
    pub fn new(info: Section<'s, 'b>) -> UnitHeaders<'s, 'b>
        ensures { result ≡ record { section = section_view info.entry; place = 0 } }
    {
        UnitHeaders { info, place: 0 }
    }

    /// The header of the next unit; None exactly at the section's end, and after an error. InvalidDwarf exactly where
    /// a header is not whole or not as it has to be.
    #[tactic(auto, unfolding(crate::specs::Headers::next_unit))]
    pub fn next_header(&mut self) -> Result<Option<UnitHeader>>
        ensures value { Exactly (λ h. h) result (or_invalid (next_unit self.old)) }
        ensures moves { self.new ≡ behind self.old (next_unit self.old) }
        ensures within { IfOk result
            (λ o. IfSome o (λ h. (h.start ≡ self.old.place) × (h.start < h.entries)
            × (h.entries ≤ h.end) × (h.end ≤ length self.old.section.bytes))) }
    {
        if self.place >= self.info.bytes.len() {
            return Ok(None);
        }
        match header_at(&self.info, self.place) {
            Some(header) => {
                self.place = header.end;
                Ok(Some(header))
            }
            None => {
                self.place = self.info.bytes.len();
                Err(invalid("the header of a unit is not whole or not known"))
            }
        }
    }
}
