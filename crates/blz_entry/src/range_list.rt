//! Lists of ranges.
ghost use Rattle.std.specs.Prelude.{◌≡◌, ◌≤◌, ◌<◌, ◌+◌, ◌^◌, length, take, vec_len, IfErr, OnOk, OnErr, MatchResult, Some, ◌++◌};
ghost use Rattle.std.specs.Option.{option_to_list};
ghost use Rattle.blz_error.specs.declared.kind.ErrorKind.TheVariants.{OutOfMemory};
ghost use Rattle.blz_model.specs.Part.{Fails};
ghost use Rattle.blz_info.specs.Contents.{section_view};
ghost use Rattle.blz_info.specs.Marks.{or_invalid};
ghost use Rattle.blz_entry.specs.RangeLists.{greatest, is_dead, live, spelled, base_behind, is_end, pair_meaning, pair_at, base_of_index, both_by_index, begin_by_index, offset_pair, base_address, begin_and_end, begin_and_length, coded_entry, coded_entry_at, range_entry_at, list_length, spans_from};

use crate::addresses::address_of;
use crate::root::UnitRoot;
use blz_bytes::{Room, u8_at, uleb_at};
use blz_constants::dwarf;
use blz_error::Result;
use blz_info::{Section, Sections, UnitHeader, address_at, invalid};
use blz_ranges::Span;

/// What a range that is kept takes of a file's room: its own words, its owner and its place in an index.
const RANGE_WORDS: u64 = 10;

/// An entry of a list of ranges.
#[derive(Clone, Copy)]
pub(crate) enum RangeEntry {
    /// The list ends.
    End,
    /// What offsets are added to from here on.
    Base(u64),
    /// A range by its begin and its end, which are added to the base.
    Offsets(u64, u64),
    /// A range by its begin and its end.
    Addresses(u64, u64),
    /// A range by its begin and its length.
    Length(u64, u64),
}

/// The greatest address.
pub(crate) fn greatest(address_size: u8) -> u64
    ensures value { result ≡ greatest address_size }
    ensures above { 0 < result }
{
    if address_size == 4 {
        0xffff_ffff
    } else {
        u64::MAX
    }
}

fn is_dead(version: u16, address_size: u8, address: u64) -> bool
    ensures { result ≡ is_dead version address_size address }
{
    let greatest = greatest(address_size);
    address == greatest || (version < 5 && address == greatest - 1)
}

fn live(version: u16, address_size: u8, begin: u128, end: u128) -> Option<Span>
    ensures { result ≡ live version address_size begin end }
{
    if begin >= end || end > u128::from(greatest(address_size)) {
        return None;
    }
    let begin = begin as u64;
    if is_dead(version, address_size, begin) {
        return None;
    }
    Some(Span {
        begin,
        end: end as u64,
    })
}

fn spelled(version: u16, address_size: u8, base: u64, entry: RangeEntry) -> Option<Span>
    ensures { result ≡ spelled version address_size base entry }
{
    match entry {
        RangeEntry::End | RangeEntry::Base(_) => None,
        RangeEntry::Offsets(begin, end) => {
            if is_dead(version, address_size, base) {
                return None;
            }
            let base = u128::from(base);
            live(
                version,
                address_size,
                base + u128::from(begin),
                base + u128::from(end),
            )
        }
        RangeEntry::Addresses(begin, end) => live(
            version,
            address_size,
            u128::from(begin),
            u128::from(end),
        ),
        RangeEntry::Length(begin, len) => {
            let begin = u128::from(begin);
            live(version, address_size, begin, begin + u128::from(len))
        }
    }
}

fn base_behind(base: u64, entry: RangeEntry) -> u64
    ensures { result ≡ base_behind base entry }
{
    match entry {
        RangeEntry::Base(address) => address,
        _ => base,
    }
}

fn is_end(entry: RangeEntry) -> bool
    ensures { result ≡ is_end entry }
{
    match entry {
        RangeEntry::End => true,
        _ => false,
    }
}

fn pair_meaning(address_size: u8, first: u64, second: u64) -> RangeEntry
    ensures { result ≡ pair_meaning address_size first second }
{
    if first == 0 && second == 0 {
        RangeEntry::End
    } else if first == greatest(address_size) {
        RangeEntry::Base(second)
    } else {
        RangeEntry::Offsets(first, second)
    }
}

#[tactic(auto, unfolding(crate::specs::RangeLists::pair_at))]
fn pair_at(address_size: u8, section: &Section<'_, '_>, at: usize) -> Option<(RangeEntry, usize)>
    ensures { result ≡ pair_at address_size (section_view section.now) at }
{
    let (first, next) = address_at(address_size, section, at)?;
    let (second, next) = address_at(address_size, section, next)?;
    Some((pair_meaning(address_size, first, second), next))
}

#[tactic(auto, unfolding(crate::specs::RangeLists::base_of_index))]
fn base_of_index(
    sections: &Sections<'_, '_>,
    header: &UnitHeader,
    root: &UnitRoot,
    at: usize,
) -> Option<(RangeEntry, usize)>
    ensures { result ≡ base_of_index sections.now header.now root.now at }
{
    let (index, next) = uleb_at(sections.rnglists.bytes, at)?;
    let address = address_of(sections, header, root, index)?;
    Some((RangeEntry::Base(address), next))
}

#[tactic(auto, unfolding(crate::specs::RangeLists::both_by_index))]
fn both_by_index(
    sections: &Sections<'_, '_>,
    header: &UnitHeader,
    root: &UnitRoot,
    at: usize,
) -> Option<(RangeEntry, usize)>
    ensures { result ≡ both_by_index sections.now header.now root.now at }
{
    let (first, next) = uleb_at(sections.rnglists.bytes, at)?;
    let (second, next) = uleb_at(sections.rnglists.bytes, next)?;
    let begin = address_of(sections, header, root, first)?;
    let end = address_of(sections, header, root, second)?;
    Some((RangeEntry::Addresses(begin, end), next))
}

#[tactic(auto, unfolding(crate::specs::RangeLists::begin_by_index))]
fn begin_by_index(
    sections: &Sections<'_, '_>,
    header: &UnitHeader,
    root: &UnitRoot,
    at: usize,
) -> Option<(RangeEntry, usize)>
    ensures { result ≡ begin_by_index sections.now header.now root.now at }
{
    let (index, next) = uleb_at(sections.rnglists.bytes, at)?;
    let (len, next) = uleb_at(sections.rnglists.bytes, next)?;
    let begin = address_of(sections, header, root, index)?;
    Some((RangeEntry::Length(begin, len), next))
}

#[tactic(auto, unfolding(crate::specs::RangeLists::offset_pair))]
fn offset_pair(bytes: &[u8], at: usize) -> Option<(RangeEntry, usize)>
    ensures { result ≡ offset_pair bytes.now at }
{
    let (begin, next) = uleb_at(bytes, at)?;
    let (end, next) = uleb_at(bytes, next)?;
    Some((RangeEntry::Offsets(begin, end), next))
}

#[tactic(auto, unfolding(crate::specs::RangeLists::base_address))]
fn base_address(
    address_size: u8,
    section: &Section<'_, '_>,
    at: usize,
) -> Option<(RangeEntry, usize)>
    ensures { result ≡ base_address address_size (section_view section.now) at }
{
    let (address, next) = address_at(address_size, section, at)?;
    Some((RangeEntry::Base(address), next))
}

#[tactic(auto, unfolding(crate::specs::RangeLists::begin_and_end))]
fn begin_and_end(
    address_size: u8,
    section: &Section<'_, '_>,
    at: usize,
) -> Option<(RangeEntry, usize)>
    ensures { result ≡ begin_and_end address_size (section_view section.now) at }
{
    let (begin, next) = address_at(address_size, section, at)?;
    let (end, next) = address_at(address_size, section, next)?;
    Some((RangeEntry::Addresses(begin, end), next))
}

#[tactic(auto, unfolding(crate::specs::RangeLists::begin_and_length))]
fn begin_and_length(
    address_size: u8,
    section: &Section<'_, '_>,
    at: usize,
) -> Option<(RangeEntry, usize)>
    ensures { result ≡ begin_and_length address_size (section_view section.now) at }
{
    let (begin, next) = address_at(address_size, section, at)?;
    let (len, next) = uleb_at(section.bytes, next)?;
    Some((RangeEntry::Length(begin, len), next))
}

#[tactic(auto, unfolding(crate::specs::RangeLists::coded_entry, crate::specs::RangeLists::coded_entry_at))]
fn coded_entry_at(
    sections: &Sections<'_, '_>,
    header: &UnitHeader,
    root: &UnitRoot,
    at: usize,
) -> Option<(RangeEntry, usize)>
    ensures { result ≡ coded_entry_at sections.now header.now root.now at }
{
    let list = &sections.rnglists;
    let (code, next) = u8_at(list.bytes, at)?;
    match code {
        dwarf::DW_RLE_end_of_list => Some((RangeEntry::End, next)),
        dwarf::DW_RLE_base_addressx => base_of_index(sections, header, root, next),
        dwarf::DW_RLE_startx_endx => both_by_index(sections, header, root, next),
        dwarf::DW_RLE_startx_length => begin_by_index(sections, header, root, next),
        dwarf::DW_RLE_offset_pair => offset_pair(list.bytes, next),
        dwarf::DW_RLE_base_address => base_address(header.address_size, list, next),
        dwarf::DW_RLE_start_end => begin_and_end(header.address_size, list, next),
        dwarf::DW_RLE_start_length => begin_and_length(header.address_size, list, next),
        _ => None,
    }
}

#[tactic(auto, unfolding(crate::specs::RangeLists::range_entry_at))]
fn range_entry_at(
    sections: &Sections<'_, '_>,
    header: &UnitHeader,
    root: &UnitRoot,
    at: usize,
) -> Option<(RangeEntry, usize)>
    ensures { result ≡ range_entry_at sections.now header.now root.now at }
{
    if header.version < 5 {
        pair_at(header.address_size, &sections.ranges, at)
    } else {
        coded_entry_at(sections, header, root, at)
    }
}

fn list_length(sections: &Sections<'_, '_>, header: &UnitHeader) -> usize
    ensures value { result ≡ list_length sections.now header.now }
    ensures small { result < 2 ^ 63 }
{
    if header.version < 5 {
        sections.ranges.bytes.len()
    } else {
        sections.rnglists.bytes.len()
    }
}

pub(crate) fn put(room: &mut Room, out: &mut Vec<Span>, span: Option<Span>) -> Result<()>
    ensures ok { OnOk result (out.new.items ≡ out.old.items ++ option_to_list span) }
    ensures err { OnErr result (out.new.items ≡ out.old.items) }
    ensures memory { IfErr result (λ e. e.kind ≡ OutOfMemory) }
{
    if let Some(span) = span {
        room.take(RANGE_WORDS)?;
        out.push(span)?;
    }
    Ok(())
}

/// Appends the ranges of a list, whose entries take of the room a word each. After an error more may stand behind what was
/// there.
pub(crate) fn append_list(
    room: &mut Room,
    sections: &Sections<'_, '_>,
    header: &UnitHeader,
    root: &UnitRoot,
    offset: u64,
    out: &mut Vec<Span>,
) -> Result<()>
    ensures value { MatchResult result
        (λ _. spans_from out.old.items sections.now header.now root.now offset
        ≡ Some out.new.items)
        (λ e. Fails e.kind
        (or_invalid (spans_from out.old.items sections.now header.now root.now offset))) }
    ensures front { take (vec_len out.old) out.new.items ≡ out.old.items }
{
    let end = list_length(sections, header);
    let mut base = root.low_pc;
    let mut place = offset as usize;
    for _ in 0..end + 1 {
        if place == end {
            return Ok(());
        }
        room.take(1)?;
        let Some((entry, next)) = range_entry_at(sections, header, root, place) else {
            return Err(invalid("an entry of a list of ranges is not whole or not known"));
        };
        if is_end(entry) {
            return Ok(());
        }
        put(
            room,
            out,
            spelled(header.version, header.address_size, base, entry),
        )?;
        base = base_behind(base, entry);
        place = next;
    }
    Err(invalid("a list of ranges does not end"))
}
