//! The functions among the entries of a unit.
ghost use Rattle.std.specs.Prelude.{◌≡◌, [], ◌≤◌, map, IfOk};
ghost use Rattle.blz_model.specs.Part.{Gives};
ghost use Rattle.blz_info.specs.Marks.{or_invalid};
ghost use Rattle.blz_functions.specs.Describing.{specs_of};
ghost use Rattle.blz_functions.specs.FunctionList.{is_function_tag, function_by, lists_added, function_added, no_lists, unit_lists, entry_met};
ghost use Rattle.blz_ranges.specs.Keyed.{IsAccepted, begin_key};
ghost use Rattle.blz_functions.specs.Leaves.{source_in};
ghost use Rattle.blz_functions.specs.Opened.{open_view, CanBeOpened};
ghost use Rattle.blz_ranges.specs.Owned.{items_of};

use crate::description::Description;
use crate::functions::{Function, Functions};
use crate::links::Links;
use crate::open_unit::OpenUnit;
use crate::walking::walk_words;
use blz_bytes::{Orders, Room};
use blz_constants::dwarf;
use blz_entry::{Entries, Entry, Passing, Span};
use blz_error::Result;
use blz_ranges::own;
use std::alloc::{AllocError, Global};
use std::marker::Model;

/// What a function that is kept takes of a file's room.
const FUNCTION_WORDS: u64 = 6;

/// Functions, and their ranges with the number of the function of each.
#[derive(Drop)]
pub struct FunctionLists {
    functions: Vec<Function>,
    spans: Vec<Span>,
    owners: Vec<usize>,
}

impl Model for FunctionLists {
    ghost use Rattle.std.specs.Prelude.{◌≡◌, length};
    ghost use Rattle.blz_functions.specs.FunctionList.{Lists};
    ghost use Rattle.blz_ranges.specs.Owned.{owned};

    ghost Value = { Lists };

    ghost view = { λ l. record { functions = l.functions.items; ranges = owned l.spans.items l.owners.items } };

    ghost invariant = { λ l. length l.spans.items ≡ length l.owners.items };
}

/// Whether the entries of a tag are functions.
pub fn is_function_tag(tag: u64) -> bool
    ensures { result ≡ is_function_tag tag }
{
    tag == dwarf::DW_TAG_subprogram
}

fn function_by(place: usize, description: &Description) -> Function
    ensures { result ≡ function_by place description.now }
{
    Function {
        place,
        name: description.name,
        bounds: description.ranges.bounds(),
    }
}

impl FunctionLists {
    fn new(alloc: Global) -> FunctionLists
        ensures { result ≡ no_lists }
    {
        FunctionLists {
            functions: Vec::new(alloc),
            spans: Vec::new(alloc),
            owners: Vec::new(alloc),
        }
    }

    /// The lists with one more function, where it has a range.
    fn with(
        self,
        room: &mut Room,
        unit: &OpenUnit<'_, '_>,
        place: usize,
        description: &Description,
    ) -> Result<FunctionLists>
        ensures { Gives (λ l. l) result
            (or_invalid (lists_added (open_view unit.now) self place description.now)) }
    {
        let FunctionLists {
            mut functions,
            mut spans,
            mut owners,
        } = self;
        let some = unit.append_ranges(room, &description.ranges, &mut spans)?;
        if !some {
            return Ok(FunctionLists {
                functions,
                spans,
                owners,
            });
        }
        room.take(FUNCTION_WORDS)?;
        own(&mut owners, functions.len(), spans.len())?;
        functions.push(function_by(place, description))?;
        Ok(FunctionLists {
            functions,
            spans,
            owners,
        })
    }

    /// The lists with the function that an entry is, if it is one.
    #[inline(always)]
    fn with_described(
        self,
        room: &mut Room,
        unit: &OpenUnit<'_, '_>,
        place: usize,
        description: &Option<Description>,
    ) -> Result<FunctionLists>
        ensures { Gives (λ l. l) result
            (or_invalid (function_added (open_view unit.now) self place description.now)) }
    {
        match description {
            Some(description) => self.with(room, unit, place, description),
            None => Ok(self),
        }
    }

    /// The lists with what an entry adds, which was met last; its attributes are read.
    #[inline(always)]
    #[tactic(auto, unfolding(crate::specs::FunctionList::entry_met))]
    fn with_entry<F: Links>(
        self,
        room: &mut Room,
        unit: &OpenUnit<'_, '_>,
        links: &mut F,
        entries: &mut Entries<'_, '_>,
        entry: &Entry,
    ) -> Result<FunctionLists>
        requires source { entries.old.source ≡ source_in (open_view unit.now) }
        requires met { entries.old.pending ≡ specs_of (open_view unit.now) entry.now.code }
        ensures value { Gives (λ l. (l, entries.new.place)) result
            (or_invalid (entry_met (F.refer (F.linkage links.old)) (open_view unit.now)
            self entry.now entries.old)) }
        ensures pending { IfOk result (λ _. entries.new.pending ≡ []) }
        ensures source { entries.new.source ≡ entries.old.source }
        ensures depth { entries.new.depth ≡ entries.old.depth }
        ensures ahead { entries.old.place ≤ entries.new.place }
        ensures same { F.linkage links.new ≡ F.linkage links.old }
    {
        let wanted = is_function_tag(entry.tag);
        match Description::of_entry(room, unit, links, entries, entry.code, wanted) {
            Ok(description) => self.with_described(room, unit, entry.place, &description),
            Err(fault) => Err(fault),
        }
    }

    /// The functions of a unit. InvalidDwarf exactly where one of its entries, or the name or the ranges of one of its
    /// functions, has no value. What is walked over takes of the room.
    pub fn read<F: Links>(
        alloc: Global,
        room: &mut Room,
        unit: &OpenUnit<'_, '_>,
        links: &mut F,
    ) -> Result<FunctionLists>
        requires { CanBeOpened unit.now }
        ensures value { Gives (λ l. l) result
            (or_invalid (unit_lists (F.refer (F.linkage links.old)) (open_view unit.now))) }
        ensures same { F.linkage links.new ≡ F.linkage links.old }
    {
        room.take(walk_words(unit.header.entries, unit.header.end))?;
        let mut entries = unit.entries(unit.header.entries)?;
        let mut lists = FunctionLists::new(alloc);
        loop {
            entries.pass_over(Passing::Unplaced, dwarf::DW_TAG_subprogram);
            let entry = match entries.next_entry() {
                Ok(Some(entry)) => entry,
                Ok(None) => return Ok(lists),
                Err(fault) => return Err(fault),
            };
            lists = match lists.with_entry(room, unit, links, &mut entries, &entry) {
                Ok(more) => more,
                Err(fault) => return Err(fault),
            };
        }
    }

    /// The functions with an index of their ranges. Only want of memory is refused.
    pub fn indexed<O: Orders>(
        self,
        alloc: Global,
        orders: &mut O,
    ) -> std::result::Result<Functions, AllocError>
        ensures functions { IfOk result (λ x. x.functions ≡ self.functions) }
        ensures ranges { IfOk result (λ x. x.ranges ≡ self.ranges) }
        ensures accepted { IfOk result
            (λ x. IsAccepted O.pair_places (map begin_key (items_of self.ranges)) x.ordered) }
    {
        Functions::build(alloc, orders, self.functions, self.spans, self.owners)
    }
}
