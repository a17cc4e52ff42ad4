//! The inlined calls among the entries below a function.
ghost use Rattle.std.specs.Prelude.{◌≡◌, ◌++◌, [], ◌≤◌, length, map, OnOk, IfOk};
ghost use Rattle.blz_model.specs.Part.{Gives};
ghost use Rattle.blz_info.specs.Marks.{or_invalid};
ghost use Rattle.blz_functions.specs.CallTree.{no_calls, call_by, call_added, calls_from, unit_calls};
ghost use Rattle.blz_functions.specs.CallWalk.{call_if, call_met};
ghost use Rattle.blz_functions.specs.Describing.{specs_of};
ghost use Rattle.blz_ranges.specs.Groups.{grouped};
ghost use Rattle.blz_ranges.specs.Keyed.{IsAccepted, group_key};
ghost use Rattle.blz_functions.specs.Leaves.{source_in};
ghost use Rattle.blz_functions.specs.Opened.{open_view, CanBeOpened};
ghost use Rattle.blz_ranges.specs.Owned.{items_of};

use crate::description::Description;
use crate::inlined_functions::{InlinedFunction, InlinedFunctions};
use crate::levels::Levels;
use crate::links::Links;
use crate::open_unit::OpenUnit;
use crate::walking::walk_words;
use blz_bytes::{Orders, Room};
use blz_constants::dwarf;
use blz_entry::{Entries, Entry, Passing, Span, invalid};
use blz_error::Result;
use blz_ranges::{Grouped, own};
use std::alloc::{AllocError, Global};
use std::marker::Model;

/// What a call that is kept takes of a file's room.
const CALL_WORDS: u64 = 6;

/// Inlined calls, and their ranges in groups by depth, each with the number of its call.
#[derive(Drop)]
pub struct CallLists {
    calls: Vec<InlinedFunction>,
    ranges: Vec<Grouped>,
    owners: Vec<usize>,
    /// What the ranges of one call are read into.
    spans: Vec<Span>,
}

impl Model for CallLists {
    ghost use Rattle.std.specs.Prelude.{◌≡◌, length};
    ghost use Rattle.blz_functions.specs.CallTree.{CallLists};
    ghost use Rattle.blz_ranges.specs.Owned.{owned};

    ghost Value = { CallLists };

    ghost view = { λ l. record { calls = l.calls.items; ranges = owned l.ranges.items l.owners.items } };

    ghost invariant = { λ l. length l.ranges.items ≡ length l.owners.items };
}

fn group(
    ranges: &mut Vec<Grouped>,
    group: usize,
    spans: &[Span],
) -> std::result::Result<(), AllocError>
    ensures { OnOk result (ranges.new.items ≡ ranges.old.items ++ map (grouped group) spans.now) }
{
    for span in spans {
        ranges.push(Grouped { group, span: *span })?;
    }
    Ok(())
}

fn call_by(description: &Description) -> InlinedFunction
    ensures { result ≡ call_by description.now }
{
    InlinedFunction {
        name: description.name,
        call_file: description.site.file,
        call_line: description.site.line,
        call_column: description.site.column,
    }
}

impl CallLists {
    fn new(alloc: Global) -> CallLists
        ensures { result ≡ no_calls }
    {
        CallLists {
            calls: Vec::new(alloc),
            ranges: Vec::new(alloc),
            owners: Vec::new(alloc),
            spans: Vec::new(alloc),
        }
    }

    /// The lists with one more call.
    fn with(
        self,
        room: &mut Room,
        unit: &OpenUnit<'_, '_>,
        depth: usize,
        description: &Description,
    ) -> Result<CallLists>
        ensures { Gives (λ l. l) result
            (or_invalid (call_added (open_view unit.now) self depth description.now)) }
    {
        let CallLists {
            mut calls,
            mut ranges,
            mut owners,
            mut spans,
        } = self;
        spans.clear();
        unit.append_ranges(room, &description.ranges, &mut spans)?;
        room.take(CALL_WORDS)?;
        group(&mut ranges, depth, spans.as_slice())?;
        own(&mut owners, calls.len(), ranges.len())?;
        calls.push(call_by(description))?;
        Ok(CallLists {
            calls,
            ranges,
            owners,
            spans,
        })
    }

    /// The lists with the call that was described, if it was.
    #[inline(always)]
    fn with_described(
        self,
        room: &mut Room,
        unit: &OpenUnit<'_, '_>,
        depth: usize,
        description: &Option<Description>,
    ) -> Result<CallLists>
        ensures { Gives (λ l. l) result
            (or_invalid (call_if (open_view unit.now) self (Some depth) description.now)) }
    {
        match description {
            Some(description) => self.with(room, unit, depth, description),
            None => Ok(self),
        }
    }

    /// The lists with a call of a depth, whose entry was met last; its attributes are read.
    #[inline(always)]
    #[tactic(auto, unfolding(crate::specs::CallWalk::call_met))]
    fn with_entry<F: Links>(
        self,
        room: &mut Room,
        unit: &OpenUnit<'_, '_>,
        links: &mut F,
        entries: &mut Entries<'_, '_>,
        entry: &Entry,
        depth: usize,
    ) -> Result<CallLists>
        requires source { entries.old.source ≡ source_in (open_view unit.now) }
        requires met { entries.old.pending ≡ specs_of (open_view unit.now) entry.now.code }
        ensures value { Gives (λ l. (l, entries.new.place)) result
            (or_invalid (call_met (F.refer (F.linkage links.old)) (open_view unit.now)
            self (Some depth) entry.now entries.old)) }
        ensures pending { IfOk result (λ _. entries.new.pending ≡ []) }
        ensures source { entries.new.source ≡ entries.old.source }
        ensures ahead { entries.old.place ≤ entries.new.place }
        ensures same { F.linkage links.new ≡ F.linkage links.old }
    {
        match Description::of_entry(room, unit, links, entries, entry.code, true) {
            Ok(description) => self.with_described(room, unit, depth, &description),
            Err(fault) => Err(fault),
        }
    }

    /// The calls among the entries that come next, up to the zero that closes their function.
    fn read_below<F: Links>(
        alloc: Global,
        room: &mut Room,
        unit: &OpenUnit<'_, '_>,
        links: &mut F,
        entries: &mut Entries<'_, '_>,
        function: usize,
    ) -> Result<CallLists>
        requires pending { entries.old.pending ≡ [] }
        requires source { entries.old.source ≡ source_in (open_view unit.now) }
        ensures value { Gives (λ l. l) result (or_invalid
            (calls_from (F.refer (F.linkage links.old)) (open_view unit.now) entries.old.place)) }
        ensures same { F.linkage links.new ≡ F.linkage links.old }
    {
        let mut lists = CallLists::new(alloc);
        let mut levels = Levels::new(alloc)?;
        let mut before = function;
        while levels.is_open() {
            entries.pass_over(Passing::Leaves, dwarf::DW_TAG_inlined_subroutine);
            let entry = match entries.next_entry() {
                Ok(Some(entry)) => entry,
                Ok(None) => {
                    room.take(walk_words(before, unit.header.end))?;
                    return Err(invalid("a function or an entry below it is not closed"));
                }
                Err(fault) => {
                    room.take(walk_words(before, unit.header.end))?;
                    return Err(fault);
                }
            };
            room.take(walk_words(before, entry.place))?;
            before = entry.place;
            let depth = levels.call_depth(entry.tag);
            levels.pass(&entry)?;
            // most entries are no calls, and the lists stay where they are
            let Some(depth) = depth else {
                entries.skip_attributes()?;
                continue;
            };
            lists = match lists.with_entry(room, unit, links, entries, &entry, depth) {
                Ok(more) => more,
                Err(fault) => return Err(fault),
            };
        }
        Ok(lists)
    }

    /// The calls of the function whose entry stands at a place. InvalidDwarf exactly where no entry of the unit stands
    /// there, where it or an entry below it is not closed or has no value, or where the name or the ranges of a call have
    /// none.
    pub fn read<F: Links>(
        alloc: Global,
        room: &mut Room,
        unit: &OpenUnit<'_, '_>,
        links: &mut F,
        place: usize,
    ) -> Result<CallLists>
        requires { CanBeOpened unit.now }
        ensures value { Gives (λ l. l) result
            (or_invalid (unit_calls (F.refer (F.linkage links.old)) (open_view unit.now) place)) }
        ensures same { F.linkage links.new ≡ F.linkage links.old }
    {
        let mut entries = unit.entries(place)?;
        let entry = match entries.next_entry() {
            Ok(Some(entry)) => entry,
            Ok(None) => return Err(invalid("no function stands past the entries of a unit")),
            Err(fault) => return Err(fault),
        };
        if entry.code == 0 {
            return Err(invalid("no function stands at a zero"));
        }
        match entries.skip_attributes() {
            Ok(()) => (),
            Err(fault) => return Err(fault),
        }
        if !entry.children {
            return Ok(CallLists::new(alloc));
        }
        CallLists::read_below(alloc, room, unit, links, &mut entries, entry.place)
    }

    /// The calls with an index of their ranges. Only want of memory is refused.
    pub fn indexed<O: Orders>(
        self,
        alloc: Global,
        orders: &mut O,
    ) -> std::result::Result<InlinedFunctions, AllocError>
        ensures calls { IfOk result (λ x. x.calls ≡ self.calls) }
        ensures ranges { IfOk result (λ x. x.ranges ≡ self.ranges) }
        ensures accepted { IfOk result
            (λ x. IsAccepted O.pair_places (map group_key (items_of self.ranges)) x.ordered) }
    {
        let CallLists {
            calls,
            ranges,
            owners,
            spans: _,
        } = self;
        InlinedFunctions::build(alloc, orders, calls, ranges, owners)
    }
}
