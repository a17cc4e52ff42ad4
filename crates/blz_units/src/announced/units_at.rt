//! The units that announce an address, each once as far as can be noted.
ghost use Rattle.std.specs.Prelude.{◌≡◌, ◌≤◌, ◌-◌, true, false, drop};
ghost use Rattle.std.specs.List.{slice_get};
ghost use Rattle.blz_units.specs.Announced.{to_tell, TakesFew};
ghost use Rattle.blz_units.specs.Seen.{is_unit, is_noted, noted, IsOnce};

use crate::announced::announcers::Announcers;
use blz_bytes::Steps;
use blz_ranges::OwnedRanges;
use std::marker::Model;
use std::sync::ledger::Ledger;

/// So many units are noted: a question takes no memory.
const MOST_NOTED: usize = 8;

/// The units that were told first.
#[derive(Clone, Copy)]
struct Told {
    units: [Option<usize>; 8],
    /// Where the next one is noted.
    next: usize,
}

/// The units that announce an address, from the next one on: by the ranges that cover it, those with the greatest begin
/// first, then the earlier ones.
#[derive(Drop)]
pub struct UnitsAt<'u> {
    all: Announcers<'u>,
    told: Told,
}

impl<'u> Model for UnitsAt<'u> {
    ghost use Rattle.std.specs.Prelude.{◌≡◌, true};
    ghost use Rattle.blz_units.specs.Announced.{Announcing};
    ghost use Rattle.blz_units.specs.Seen.{left_of, IsNoneNoted};

    ghost Value = { Announcing };

    ghost view = { λ u. left_of u.told u.all };

    ghost invariant = { λ u. u.all.fresh ≡ true → IsNoneNoted u.told };
}

fn is_unit(told: Option<usize>, unit: usize) -> bool
    ensures { result ≡ is_unit told unit }
{
    match told {
        Some(number) => number == unit,
        None => false,
    }
}

/// Whether a unit is among some that were told.
fn is_noted(told: &[Option<usize>], unit: usize) -> bool
    ensures { result ≡ is_noted told.now unit }
{
    for place in told {
        if is_unit(*place, unit) {
            return true;
        }
    }
    false
}

impl Told {
    fn has(&self, unit: usize) -> bool
        ensures { result ≡ is_noted self.now.units unit }
    {
        is_noted(&self.units, unit)
    }

    /// Notes a unit, where there is room for it.
    fn with(mut self, unit: usize) -> Told
        ensures { result ≡ noted self unit }
    {
        if self.next < MOST_NOTED {
            self.units[self.next] = Some(unit);
            self.next += 1;
        }
        self
    }
}

impl<'u> UnitsAt<'u> {
    /// The units that announce an address, each as often as a range of it does.
    pub fn new(announced: &'u OwnedRanges, addr: u64) -> UnitsAt<'u>
        ensures { result ≡ to_tell announced.now addr }
    {
        UnitsAt {
            all: Announcers::new(announced, addr),
            told: Told {
                units: [None; 8],
                next: MOST_NOTED,
            },
        }
    }

    /// The same, without some that were told before.
    pub fn once(announced: &'u OwnedRanges, addr: u64) -> UnitsAt<'u>
        ensures { IsOnce announced.now addr result }
    {
        UnitsAt {
            all: Announcers::new(announced, addr),
            told: Told {
                units: [None; 8],
                next: 0,
            },
        }
    }

    /// The number of the next unit; None exactly where no further range covers the address. The bound of the looks holds
    /// for the first unit that is asked for.
    pub fn next_unit<L: Ledger>(&mut self, steps: &mut Steps<L>) -> Option<usize>
        ensures unit { result ≡ slice_get self.old.left 0 }
        ensures left { self.new ≡ record self.old { left = drop 1 self.old.left; fresh = false } }
        ensures cost { self.old.fresh ≡ true
            → TakesFew self.old.announced (steps.new - steps.old) }
        ensures later { steps.old ≤ steps.new }
    {
        loop {
            let unit = self.all.next_unit(steps)?;
            if !self.told.has(unit) {
                self.told = self.told.with(unit);
                return Some(unit);
            }
        }
    }
}
