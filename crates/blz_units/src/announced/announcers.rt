//! The units that announce an address, by all their ranges.
ghost use Rattle.std.specs.Prelude.{◌≡◌, ◌≤◌, ◌-◌, true, false, drop, Option};
ghost use Rattle.std.specs.List.{slice_get};
ghost use Rattle.blz_units.specs.Announced.{is_first, places_left, to_tell, turn_of, IsTurn, TakesFew};
ghost use Rattle.blz_ranges.specs.Ranges.{owner_of};

use blz_bytes::Steps;
use blz_ranges::OwnedRanges;
use std::marker::Model;
use std::sync::ledger::Ledger;

/// Which of the ranges that cover an address is next.
#[derive(Clone, Copy)]
enum Turn {
    /// The best one.
    First,
    /// The one after the one at a place.
    After(usize),
    /// None.
    Over,
}

/// The units of the ranges that cover an address, from the next range on: those with the greatest begin first, then the
/// earlier ones.
#[derive(Drop)]
pub(crate) struct Announcers<'u> {
    announced: &'u OwnedRanges,
    addr: u64,
    turn: Turn,
}

impl<'u> Model for Announcers<'u> {
    ghost use Rattle.std.specs.Prelude.{◌≡◌};
    ghost use Rattle.blz_units.specs.Announced.{Announcing, places_left, is_first, IsTurn};
    ghost use Rattle.blz_ranges.specs.Owned.{owners_of};

    ghost Value = { Announcing };

    ghost view = { λ u. record { announced = u.announced.now; address = u.addr; left = owners_of u.announced.now.ranges (places_left u.announced.now.ranges u.addr u.turn); fresh = is_first u.turn } };

    ghost invariant = { λ u. IsTurn u.announced.now.ranges u.addr u.turn };
}

fn turn_of(place: Option<usize>) -> Turn
    ensures { result ≡ turn_of place }
{
    match place {
        Some(place) => Turn::After(place),
        None => Turn::Over,
    }
}

/// The place of the range whose turn it is.
fn next_place<L: Ledger>(
    announced: &OwnedRanges,
    addr: u64,
    turn: Turn,
    steps: &mut Steps<L>,
) -> Option<usize>
    requires { IsTurn announced.now.ranges addr turn }
    ensures place { result ≡ slice_get (places_left announced.now.ranges addr turn) 0 }
    ensures cost { is_first turn ≡ true → TakesFew announced.now (steps.new - steps.old) }
    ensures later { steps.old ≤ steps.new }
{
    match turn {
        Turn::First => announced.best_at(addr, steps),
        Turn::After(place) => announced.next_below(addr, place, steps),
        Turn::Over => None,
    }
}

/// What the range at a place belongs to.
fn owner_of(announced: &OwnedRanges, place: Option<usize>) -> Option<usize>
    ensures { result ≡ owner_of announced.now.ranges place }
{
    match place {
        Some(place) => announced.owner(place),
        None => None,
    }
}

impl<'u> Announcers<'u> {
    /// The units that announce an address.
    pub(crate) fn new(announced: &'u OwnedRanges, addr: u64) -> Announcers<'u>
        ensures { result ≡ to_tell announced.now addr }
    {
        Announcers {
            announced,
            addr,
            turn: Turn::First,
        }
    }

    /// The number of the next unit; None exactly where no further range covers the address. The bound of the looks holds
    /// for the first unit that is asked for.
    pub(crate) fn next_unit<L: Ledger>(&mut self, steps: &mut Steps<L>) -> Option<usize>
        ensures unit { result ≡ slice_get self.old.left 0 }
        ensures left { self.new ≡ record self.old { left = drop 1 self.old.left; fresh = false } }
        ensures cost { self.old.fresh ≡ true
            → TakesFew self.old.announced (steps.new - steps.old) }
        ensures later { steps.old ≤ steps.new }
    {
        let place = next_place(self.announced, self.addr, self.turn, steps);
        self.turn = turn_of(place);
        owner_of(self.announced, place)
    }
}
