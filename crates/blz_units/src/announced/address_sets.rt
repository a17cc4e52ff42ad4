//! The sets of address ranges of a file.
ghost use Rattle.std.specs.Prelude.{◌≡◌, ◌<◌, ◌++◌, List, OnOk, IfOk, option_map, unwrap_or};
ghost use Rattle.std.specs.Bool.{OnTrue};
ghost use Rattle.std.specs.List.Sorted.{IsNonDecreasingBy};
ghost use Rattle.blz_model.specs.Part.{Gives};
ghost use Rattle.blz_entry.specs.AddressSets.{pairs_of};
ghost use Rattle.blz_info.specs.Contents.{section_view};
ghost use Rattle.blz_info.specs.Marks.{or_invalid};
ghost use Rattle.blz_entry.specs.declared.aranges.ArangeSet.{ArangeSet};
ghost use Rattle.blz_units.specs.Sets.{sets_from, ranges_for, named, IsByUnit, IsExtent};

use crate::words::RANGE_WORDS;
use blz_bytes::Room;
use blz_entry::{ArangeSet, Aranges, Section, Span};
use blz_error::Result;
use std::alloc::{AllocError, Global};
use std::marker::Model;

/// The sets of address ranges of a file, in the order of their section.
#[derive(Drop)]
pub struct AddressSets {
    sets: Vec<ArangeSet>,
    /// Where the sets do not rise: by the units that they name, those of one unit in the order of the section.
    by_unit: Option<Vec<ArangeSet>>,
}

impl Model for AddressSets {
    ghost Value = { List ArangeSet };

    ghost view = { λ s. s.sets.items };

    ghost invariant = { λ s. IsByUnit s.sets.items (unwrap_or (option_map (λ sorted. sorted.items) s.by_unit) s.sets.items) };
}

/// Whether the sets stand in the order of the units that they name, as compilers write them.
fn are_rising(sets: &[ArangeSet]) -> bool
    ensures { OnTrue result (IsNonDecreasingBy (λ (set : ArangeSet). set.unit) sets.now) }
{
    for at in 1..sets.len() {
        if sets[at].unit < sets[at - 1].unit {
            return false;
        }
    }
    true
}

/// The sets by the units that they name, those of one unit in the order of the section, where they do not stand so.
fn sorted_by_unit(
    alloc: Global,
    sets: &[ArangeSet],
) -> std::result::Result<Option<Vec<ArangeSet>>, AllocError>
    ensures { IfOk result
        (λ r. IsByUnit sets.now (unwrap_or (option_map (λ sorted. sorted.items) r) sets.now)) }
{
    if are_rising(sets) {
        return Ok(None);
    }
    let mut sorted = Vec::new(alloc);
    sorted.extend_from_slice(sets)?;
    sorted.sort_by_key(|set| set.unit)?;
    Ok(Some(sorted))
}

/// All sets of a section.
fn sets_of(alloc: Global, aranges: Section<'_, '_>) -> Result<Vec<ArangeSet>>
    ensures { Gives (λ v. v.items) result (or_invalid (sets_from (section_view aranges.entry) 0)) }
{
    let mut list = Aranges::new(aranges);
    let mut sets = Vec::new(alloc);
    while let Some(set) = list.next_set()? {
        sets.push(set)?;
    }
    Ok(sets)
}

/// Appends the ranges of a set.
fn append_pairs(
    room: &mut Room,
    aranges: &Section<'_, '_>,
    set: ArangeSet,
    out: &mut Vec<Span>,
) -> std::result::Result<(), AllocError>
    ensures { OnOk result
        (out.new.items ≡ out.old.items ++ pairs_of (section_view aranges.now) set) }
{
    let mut set = set;
    while let Some(span) = set.next_range(aranges) {
        room.take(RANGE_WORDS)?;
        out.push(span)?;
    }
    Ok(())
}

/// Appends the ranges of a set that names the start of a unit.
fn append_for(
    room: &mut Room,
    aranges: &Section<'_, '_>,
    start: u64,
    set: ArangeSet,
    out: &mut Vec<Span>,
) -> std::result::Result<(), AllocError>
    ensures { OnOk result
        (out.new.items ≡ out.old.items ++ ranges_for (section_view aranges.now) start set) }
{
    if set.unit == start {
        return append_pairs(room, aranges, set, out);
    }
    Ok(())
}

/// Appends the ranges of those of some sets that name it.
fn append_named(
    room: &mut Room,
    sets: &[ArangeSet],
    aranges: &Section<'_, '_>,
    start: u64,
    out: &mut Vec<Span>,
) -> std::result::Result<(), AllocError>
    ensures { OnOk result
        (out.new.items ≡ out.old.items ++ named (section_view aranges.now) start sets.now) }
{
    for set in sets {
        append_for(room, aranges, start, *set, out)?;
    }
    Ok(())
}

/// Where the sets that name the start of a unit stand, of sets that rise.
fn extent_of(sets: &[ArangeSet], start: u64) -> (usize, usize)
    requires { IsNonDecreasingBy (λ (set : ArangeSet). set.unit) sets.now }
    ensures { IsExtent start sets.now result.0 result.1 }
{
    let from = sets.partition_point(|set| set.unit < start);
    let to = sets.partition_point(|set| set.unit <= start);
    (from, to)
}

/// Appends the ranges of the sets that name the start of a unit, which stand together.
fn append_within(
    room: &mut Room,
    sets: &[ArangeSet],
    extent: (usize, usize),
    aranges: &Section<'_, '_>,
    start: u64,
    out: &mut Vec<Span>,
) -> std::result::Result<(), AllocError>
    requires { IsExtent start sets.now extent.0 extent.1 }
    ensures { OnOk result
        (out.new.items ≡ out.old.items ++ named (section_view aranges.now) start sets.now) }
{
    let (from, to) = extent;
    append_named(room, &sets[from..to], aranges, start, out)
}

impl AddressSets {
    /// Reads all sets of a section. InvalidDwarf exactly where one of them is not whole or its header not as it has to
    /// be.
    pub fn read(alloc: Global, aranges: Section<'_, '_>) -> Result<AddressSets>
        ensures { Gives (λ s. s) result (or_invalid (sets_from (section_view aranges.entry) 0)) }
    {
        let sets = sets_of(alloc, aranges)?;
        let by_unit = sorted_by_unit(alloc, sets.as_slice())?;
        Ok(AddressSets { sets, by_unit })
    }

    /// The sets by the units that they name, those of one unit in the order of the section.
    fn by_unit(&self) -> &[ArangeSet]
        ensures { IsByUnit self.now result.now }
    {
        match &self.by_unit {
            Some(sorted) => sorted.as_slice(),
            None => self.sets.as_slice(),
        }
    }

    /// Appends the ranges of the sets that name the start of a unit, in the order of the section.
    pub fn append_ranges(
        &self,
        room: &mut Room,
        aranges: &Section<'_, '_>,
        start: usize,
        out: &mut Vec<Span>,
    ) -> std::result::Result<(), AllocError>
        ensures { OnOk result
            (out.new.items ≡ out.old.items ++ named (section_view aranges.now) start self.now) }
    {
        let start = start as u64;
        let sets = self.by_unit();
        let extent = extent_of(sets, start);
        append_within(room, sets, extent, aranges, start, out)
    }
}
