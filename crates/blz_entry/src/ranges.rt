//! The attributes that tell which addresses an entry covers.
ghost use Rattle.std.specs.Prelude.{◌≡◌, MatchResult, Some, option_and_then, option_map, take, vec_len};
ghost use Rattle.blz_model.specs.Part.{Exactly, Fails};
ghost use Rattle.blz_info.specs.Marks.{or_invalid};
ghost use Rattle.blz_entry.specs.RangeLists.{range_offset, held_offset, answered_offset, with_low, with_high, range_step, sized, bounds_of, not_empty, ranges_of, joined, Appends};

use crate::addresses::value_address;
use crate::range_list::{append_list, put};
use crate::root::UnitRoot;
use blz_bytes::Room;
use blz_constants::dwarf;
use blz_error::Result;
use blz_info::{AttrValue, Sections, UnitHeader, indexed_offset, invalid};
use blz_ranges::Span;

/// The attributes of an entry that tell which addresses it covers (DWARF 5 section 2.17).
#[derive(Clone, Copy, Default)]
pub struct RangeAttributes {
    /// `DW_AT_low_pc`: the first address.
    pub low_pc: Option<u64>,
    /// `DW_AT_high_pc` as an address: the first address past the entry.
    pub high_pc: Option<u64>,
    /// `DW_AT_high_pc` as a constant: how many addresses there are.
    pub size: Option<u64>,
    /// `DW_AT_ranges`: where the list of ranges begins. `u64::MAX`, at which no section has a list, stands for an
    /// offset past it.
    pub ranges_offset: Option<u64>,
}

#[tactic(auto, unfolding(crate::specs::RangeLists::range_offset))]
fn range_offset(
    sections: &Sections<'_, '_>,
    header: &UnitHeader,
    root: &UnitRoot,
    value: AttrValue,
) -> Option<Option<u128>>
    ensures { result ≡ range_offset sections.now header.now root.now value }
{
    match value {
        AttrValue::SecOffset(offset) => Some(Some(u128::from(offset))),
        AttrValue::RangeIndex(index) => {
            let offset = indexed_offset(
                header.wide,
                &sections.rnglists,
                root.rnglists_base,
                index,
            )?;
            Some(Some(u128::from(offset) + u128::from(root.rnglists_base)))
        }
        _ => Some(None),
    }
}

fn answered_offset(offset: Option<u128>) -> Option<Option<u64>>
    ensures { result ≡ answered_offset offset }
{
    let Some(offset) = offset else {
        return Some(None);
    };
    if offset > u128::from(u64::MAX) {
        return None;
    }
    Some(Some(offset as u64))
}

/// Where the list of ranges of a value begins (DWARF 5 sections 7.5.5 and 7.28), and None where it is none. InvalidDwarf
/// exactly where the index lies outside `.debug_rnglists` or leads past the greatest offset, where no list has a value.
pub fn attr_ranges_offset(
    sections: &Sections<'_, '_>,
    header: &UnitHeader,
    root: &UnitRoot,
    value: AttrValue,
) -> Result<Option<u64>>
    ensures { Exactly (λ o. o) result (or_invalid
        (option_and_then answered_offset (range_offset sections.now header.now root.now value))) }
{
    let Some(offset) = range_offset(sections, header, root, value) else {
        return Err(invalid("the index of a list of ranges lies outside"));
    };
    match answered_offset(offset) {
        Some(offset) => Ok(offset),
        None => Err(invalid("a list of ranges lies past the greatest offset")),
    }
}

fn held_offset(offset: Option<u128>) -> Option<u64>
    ensures { result ≡ option_map held_offset offset }
{
    let offset = offset?;
    if offset > u128::from(u64::MAX) {
        return Some(u64::MAX);
    }
    Some(offset as u64)
}

#[inline(always)]
fn with_low(attributes: RangeAttributes, low_pc: Option<u64>) -> RangeAttributes
    ensures { result ≡ with_low attributes low_pc }
{
    match low_pc {
        None => attributes,
        Some(_) => RangeAttributes {
            low_pc,
            ..attributes
        },
    }
}

#[inline(always)]
fn with_high(
    attributes: RangeAttributes,
    high_pc: Option<u64>,
    number: Option<u64>,
) -> RangeAttributes
    ensures { result ≡ with_high attributes high_pc number }
{
    match (high_pc, number) {
        (None, None) => attributes,
        (None, Some(_)) => RangeAttributes {
            size: number,
            ..attributes
        },
        (Some(_), _) => RangeAttributes {
            high_pc,
            ..attributes
        },
    }
}

#[inline(always)]
#[tactic(auto, unfolding(crate::specs::RangeLists::range_step))]
pub(crate) fn range_step(
    sections: &Sections<'_, '_>,
    header: &UnitHeader,
    root: &UnitRoot,
    attributes: RangeAttributes,
    name: u64,
    value: AttrValue,
) -> Option<RangeAttributes>
    ensures { result ≡ range_step sections.now header.now root.now attributes (name, value) }
{
    match name {
        dwarf::DW_AT_low_pc => {
            let low = value_address(sections, header, root, value)?;
            Some(with_low(attributes, low))
        }
        dwarf::DW_AT_high_pc => {
            let high = value_address(sections, header, root, value)?;
            Some(with_high(attributes, high, value.udata()))
        }
        dwarf::DW_AT_ranges => {
            let offset = range_offset(sections, header, root, value)?;
            Some(RangeAttributes {
                ranges_offset: held_offset(offset),
                ..attributes
            })
        }
        _ => Some(attributes),
    }
}

fn sized(low: u64, size: Option<u64>) -> Option<Span>
    ensures { result ≡ sized low size }
{
    let end = low.checked_add(size?)?;
    Some(Span { begin: low, end })
}

fn not_empty(bounds: Option<Span>) -> Option<Span>
    ensures { result ≡ not_empty bounds }
{
    match bounds {
        Some(span) if span.begin < span.end => bounds,
        _ => None,
    }
}

impl RangeAttributes {
    /// These attributes with one more, in the order in which an entry has them; others than the three that tell ranges
    /// change nothing. InvalidDwarf exactly where an index lies outside.
    #[inline(always)]
    pub fn with(
        self,
        sections: &Sections<'_, '_>,
        header: &UnitHeader,
        root: &UnitRoot,
        name: u64,
        value: AttrValue,
    ) -> Result<RangeAttributes>
        ensures { Exactly (λ r. r) result
            (or_invalid (range_step sections.now header.now root.now self (name, value))) }
    {
        match range_step(sections, header, root, self, name, value) {
            Some(attributes) => Ok(attributes),
            None => Err(invalid("the index of an address or of a list of ranges lies outside")),
        }
    }

    /// The first address and the one past the last, by the attributes that tell them alone; they may be empty or
    /// reversed.
    pub fn bounds(&self) -> Option<Span>
        ensures { result ≡ bounds_of self.now }
    {
        let begin = self.low_pc?;
        match self.high_pc {
            Some(end) => Some(Span { begin, end }),
            None => sized(begin, self.size),
        }
    }

    // the ranges behind what is there; after an error more may stand there
    fn append(
        &self,
        room: &mut Room,
        sections: &Sections<'_, '_>,
        header: &UnitHeader,
        root: &UnitRoot,
        out: &mut Vec<Span>,
    ) -> Result<()>
        ensures value { MatchResult result
            (λ _. joined out.old.items (ranges_of self.now sections.now header.now root.now)
            ≡ Some out.new.items)
            (λ e. Fails e.kind
            (or_invalid (ranges_of self.now sections.now header.now root.now))) }
        ensures front { take (vec_len out.old) out.new.items ≡ out.old.items }
    {
        match self.ranges_offset {
            Some(offset) => append_list(room, sections, header, root, offset, out),
            None => put(room, out, not_empty(self.bounds())),
        }
    }

    /// Appends the ranges of the entry (DWARF 5 section 2.17) and tells whether there was one: those of its list where it
    /// has one, and else its bounds. InvalidDwarf exactly where the list is not whole or not known; after an error `out`
    /// is as before.
    pub fn for_each_range(
        &self,
        sections: &Sections<'_, '_>,
        header: &UnitHeader,
        root: &UnitRoot,
        out: &mut Vec<Span>,
    ) -> Result<bool>
        ensures { Appends (ranges_of self.now sections.now header.now root.now) out.old.items
            result out.new.items }
    {
        self.append_ranges(&mut Room::endless(), sections, header, root, out)
    }

    /// The same, where what is read and kept takes of the room.
    pub fn append_ranges(
        &self,
        room: &mut Room,
        sections: &Sections<'_, '_>,
        header: &UnitHeader,
        root: &UnitRoot,
        out: &mut Vec<Span>,
    ) -> Result<bool>
        ensures { Appends (ranges_of self.now sections.now header.now root.now) out.old.items
            result out.new.items }
    {
        let before = out.len();
        match self.append(room, sections, header, root, out) {
            Ok(()) => Ok(out.len() > before),
            Err(fault) => {
                out.truncate(before);
                Err(fault)
            }
        }
    }
}
