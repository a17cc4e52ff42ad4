//! Sets of address ranges, which tell where a unit has code.
ghost use Rattle.std.specs.Prelude.{◌≡◌, ◌≤◌, ◌<◌, ◌+◌, ◌-◌, ◌*◌, ◌^◌, ◌∷◌, [], length, IfSome, IfOk, MatchOption};
ghost use Rattle.blz_info.specs.Contents.{section_view};
ghost use Rattle.blz_entry.specs.AddressSets.{rounded_up, set_of, set_in, set_at, next_set, length_at, range_pair, kept, next_pair, pairs_from, pairs_of, GivesSet};

use crate::range_list::greatest;
use blz_bytes::{u8_at, u16_at};
use blz_error::Result;
use blz_info::{
    Extent, Section, Width, address_at, cut, extent_at, fixed_at, invalid, is_address_size,
    offset_at,
};
use blz_ranges::Span;
use std::marker::Model;

/// A set of address ranges of a unit, from the next range on (DWARF 5 section 6.1.2).
#[derive(Clone, Copy)]
pub struct ArangeSet {
    /// Where the unit begins in `.debug_info`.
    pub unit: u64,
    /// Where the next range stands.
    pub at: usize,
    /// Where the set ends.
    pub end: usize,
    /// The bytes of an address, 4 or 8.
    pub address_size: u8,
}

fn rounded_up(number: usize, size: usize) -> usize
    requires fits { number + size < 2 ^ 64 }
    requires some { 0 < size }
    ensures value { result ≡ rounded_up number size }
    ensures near { result < number + size }
{
    (number + size - 1) / size * size
}

fn set_of(start: usize, extent: Extent, unit: u64, size: u8, next: usize) -> Option<ArangeSet>
    requires order { start ≤ next }
    requires inside { next < 2 ^ 63 }
    requires size { 0 < size }
    ensures { result ≡ set_of start extent unit size next }
{
    let first = start + rounded_up(next - start, 2 * size as usize);
    if first > extent.end {
        return None;
    }
    Some(ArangeSet {
        unit,
        at: first,
        end: extent.end,
        address_size: size,
    })
}

#[tactic(auto, unfolding(crate::specs::AddressSets::set_in))]
fn set_in(start: usize, extent: Extent, set: &Section<'_, '_>, at: usize) -> Option<ArangeSet>
    requires { start ≤ at }
    ensures value { result ≡ set_in start extent (section_view set.now) at }
    ensures end { IfSome result (λ s. s.end ≡ extent.end) }
{
    let (version, next) = u16_at(set.bytes, at, set.order)?;
    let (unit, next) = offset_at(extent.wide, set, next)?;
    let (size, next) = u8_at(set.bytes, next)?;
    let (segment, next) = u8_at(set.bytes, next)?;
    if version == 2 && is_address_size(size) && segment == 0 {
        set_of(start, extent, unit, size, next)
    } else {
        None
    }
}

#[tactic(auto, unfolding(crate::specs::AddressSets::set_at))]
fn set_at(section: &Section<'_, '_>, at: usize) -> Option<ArangeSet>
    ensures value { result ≡ set_at (section_view section.now) at }
    ensures ahead { IfSome result (λ s. (at < s.end) × (s.end ≤ length section.now.bytes.now)) }
{
    let (extent, next) = extent_at(section, at)?;
    let set = cut(section, extent.end);
    set_in(at, extent, &set, next)
}

/// The sets of `.debug_aranges`, one after the other.
#[derive(Drop)]
pub struct Aranges<'s, 'b> {
    section: Section<'s, 'b>,
    place: usize,
}

impl<'s, 'b> Model for Aranges<'s, 'b> {
    ghost use Rattle.blz_info.specs.Contents.{section_view};
    ghost use Rattle.blz_entry.specs.AddressSets.{SetList, set_list_code};

    ghost Value = { SetList };

    ghost coded = { set_list_code };

    ghost view = { λ a. record { section = section_view a.section; place = a.place } };
}

impl<'s, 'b> Aranges<'s, 'b> {
    /// The sets of `.debug_aranges`.
    pub fn new(section: Section<'s, 'b>) -> Aranges<'s, 'b>
        ensures { result ≡ record { section = section_view section.entry; place = 0 } }
    {
        Aranges { section, place: 0 }
    }

    /// The next set; None exactly at the section's end. InvalidDwarf exactly where a set is not whole or its header not
    /// as it has to be, and then nothing has changed.
    #[tactic(auto, unfolding(crate::specs::AddressSets::next_set))]
    pub fn next_set(&mut self) -> Result<Option<ArangeSet>>
        ensures value { GivesSet (next_set self.old) self.old result self.new }
        ensures ahead { IfOk result (λ o. IfSome o
            (λ s. (self.old.place < s.end) × (s.end ≤ length self.old.section.bytes))) }
    {
        if self.place >= self.section.bytes.len() {
            return Ok(None);
        }
        let Some(set) = set_at(&self.section, self.place) else {
            return Err(invalid("a set of address ranges is not whole or not known"));
        };
        self.place = set.end;
        Ok(Some(set))
    }
}

#[tactic(auto, unfolding(crate::specs::AddressSets::length_at))]
fn length_at(size: u8, section: &Section<'_, '_>, at: usize) -> Option<(u64, usize)>
    ensures value { result ≡ length_at size (section_view section.now) at }
    ensures within { IfSome result (λ r. (at ≤ r.1) × (r.1 ≤ length section.now.bytes.now)) }
{
    match size {
        4 => fixed_at(Width::Four, section, at),
        8 => fixed_at(Width::Eight, section, at),
        _ => None,
    }
}

fn kept(size: u8, begin: u64, len: u64) -> Option<Span>
    ensures { result ≡ kept size begin len }
{
    let greatest = greatest(size);
    if len == 0 || begin > greatest || greatest - begin < len {
        return None;
    }
    Some(Span {
        begin,
        end: begin + len,
    })
}

#[tactic(auto, unfolding(crate::specs::AddressSets::range_pair, crate::specs::AddressSets::next_pair))]
fn next_pair(
    size: u8,
    end: usize,
    section: &Section<'_, '_>,
    at: usize,
) -> Option<(Option<Span>, usize)>
    ensures value { result ≡ next_pair end size (section_view section.now) at }
    ensures ahead { IfSome result (λ r. (at < r.1) × (at ≤ end)) }
{
    if at > end || end - at < 2 * size as usize {
        return None;
    }
    let (begin, next) = address_at(size, section, at)?;
    let (len, next) = length_at(size, section, next)?;
    Some((kept(size, begin, len), next))
}

// the next range that is kept, and the place behind it
fn next_kept(size: u8, end: usize, section: &Section<'_, '_>, at: usize) -> Option<(Span, usize)>
    ensures { MatchOption result (pairs_from end size (section_view section.now) at ≡ [])
        (λ x. pairs_from end size (section_view section.now) at
        ≡ x.0 ∷ pairs_from end size (section_view section.now) x.1) }
{
    let mut place = at;
    while let Some((range, next)) = next_pair(size, end, section, place) {
        place = next;
        if let Some(range) = range {
            return Some((range, place));
        }
    }
    None
}

impl ArangeSet {
    /// The next range of the set, of those that are not empty and do not pass the greatest address; None exactly after
    /// the last of them. The section is the one that the set came from.
    pub fn next_range(&mut self, section: &Section<'_, '_>) -> Option<Span>
        ensures value { MatchOption result (pairs_of (section_view section.now) self.old ≡ [])
            (λ x. pairs_of (section_view section.now) self.old
            ≡ x ∷ pairs_of (section_view section.now) self.new) }
        ensures ended { result ≡ None → self.new ≡ self.old }
        ensures same { self.new ≡ record self.old { at = self.new.at } }
    {
        let (range, next) = next_kept(self.address_size, self.end, section, self.at)?;
        self.at = next;
        Some(range)
    }
}
