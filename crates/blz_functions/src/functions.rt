//! The functions of a unit.
ghost use Rattle.std.specs.Prelude.{◌≡◌, ◌+◌, ◌*◌, ◌^◌, ◌-◌, ◌≤◌, true, length, map, Option, IfOk};
ghost use Rattle.blz_ranges.specs.Best.{best};
ghost use Rattle.blz_ranges.specs.Groups.{AreApart};
ghost use Rattle.blz_ranges.specs.Keyed.{IsAccepted, begin_key};
ghost use Rattle.blz_ranges.specs.Owned.{owned, items_of, owner_at};
ghost use Rattle.blz_functions.specs.FunctionRanges.{FunctionRanges};
ghost use Rattle.blz_ranges.specs.Ranges.{best_owner};

use blz_bytes::{Orders, Steps};
use blz_entry::{Span, StrPlace};
use blz_ranges::{OwnedRanges, fitted};
use std::alloc::{AllocError, Global};
use std::marker::Model;
use std::sync::ledger::Ledger;

/// A function (DWARF 5 section 3.3.1).
#[derive(Clone, Copy)]
pub struct Function {
    /// The place of its entry in the section that the unit was read from.
    pub place: usize,
    /// Its linkage name, and else its name.
    pub name: Option<StrPlace>,
    /// Its low and high address; they may be empty or reversed.
    pub bounds: Option<Span>,
}

/// The functions of a unit that have a range, with their ranges.
#[derive(Drop)]
pub struct Functions {
    functions: Vec<Function>,
    ranges: OwnedRanges,
}

impl Model for Functions {
    ghost Value = { FunctionRanges };

    ghost view = { λ x. record { functions = x.functions.items; ranges = x.ranges.ranges; ordered = x.ranges.ordered } };
}

impl Functions {
    /// The functions, and their ranges, each with the number of its function.
    pub(crate) fn build<O: Orders>(
        alloc: Global,
        orders: &mut O,
        functions: Vec<Function>,
        spans: Vec<Span>,
        owners: Vec<usize>,
    ) -> Result<Functions, AllocError>
        requires { length spans.items ≡ length owners.items }
        ensures functions { IfOk result (λ x. x.functions ≡ functions.items) }
        ensures ranges { IfOk result (λ x. x.ranges ≡ owned spans.items owners.items) }
        ensures accepted { IfOk result
            (λ x. IsAccepted O.pair_places (map begin_key spans.items) x.ordered) }
    {
        let ranges = OwnedRanges::build(alloc, orders, spans, owners)?;
        Ok(Functions {
            functions: fitted(functions),
            ranges,
        })
    }

    /// The functions in file order.
    pub fn functions(&self) -> &[Function]
        ensures { result.now ≡ self.now.functions }
    {
        self.functions.as_slice()
    }

    /// Whether the order of the ranges was accepted.
    pub fn is_ordered(&self) -> bool
        ensures { result ≡ self.now.ordered }
    {
        self.ranges.is_ordered()
    }

    /// The number of the function that the range at a place belongs to; None exactly where no range has that place.
    pub fn function_of(&self, place: usize) -> Option<usize>
        ensures { result ≡ owner_at self.now.ranges place }
    {
        self.ranges.owner(place)
    }

    /// The place of the best range that covers an address: the greatest begin, then the earlier place.
    pub fn find_address<L: Ledger>(&self, addr: u64, steps: &mut Steps<L>) -> Option<usize>
        ensures best { result ≡ best (items_of self.now.ranges) addr }
        ensures cost { self.now.ordered ≡ true → AreApart (items_of self.now.ranges)
            → 2 ^ (steps.new - steps.old) ≤ 4 * (2 * length self.now.ranges + 1) }
        ensures later { steps.old ≤ steps.new }
    {
        self.ranges.best_at(addr, steps)
    }

    /// The number of the function whose range is the best that covers an address.
    pub fn find_function(&self, addr: u64) -> Option<usize>
        ensures { result ≡ best_owner self.now.ranges addr }
    {
        self.ranges.find(addr)
    }
}
