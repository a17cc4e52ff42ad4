//! Questions to units of which each part is kept.
ghost use Rattle.std.specs.Prelude.{◌≡◌, ◌<◌, ◌≤◌, ◌-◌, true, [], length, option_map, IfOk, IfSome};
ghost use Rattle.blz_model.specs.Part.{Exactly};
ghost use Rattle.blz_info.specs.Marks.{or_invalid};
ghost use Rattle.blz_line.specs.Lookups.{location_view};
ghost use Rattle.blz_units.specs.BuiltUnits.{Files};
ghost use Rattle.blz_units.specs.KeptAnswers.{Repeats, first_kept, first_kept_line, is_value};
ghost use Rattle.blz_units.specs.KeptParts.{functions_at};
ghost use Rattle.blz_ranges.specs.Owned.{items_of};
ghost use Rattle.blz_ranges.specs.Turns.{covering};
ghost use Rattle.blz_ranges.specs.Owned.{owners_of};
ghost use Rattle.blz_units.specs.Seen.{LeavesOut};
ghost use Rattle.blz_units.specs.UnitAnswers.{unit_language, function_at};
ghost use Rattle.blz_units.specs.UnitSites.{location_at};
ghost use Rattle.blz_index.specs.UnitsWarm.{units_table, units_prepared, functions_kept, UnitsFit, FewLooks, LooksFew};

use crate::units::Units;
use blz_bytes::Steps;
use blz_entry::Texts;
use blz_error::Result;
use blz_line::Location;
use blz_model::SrcLang;
use blz_units::announced::units_at::UnitsAt;
use blz_units::caches::UnitCaches;
use blz_units::look;
use std::sync::ledger::Ledger;

/// Of the units that are still to be asked the first that has a function for an address.
fn first_function<L: Ledger>(
    units: &[UnitCaches],
    announcing: &mut UnitsAt<'_>,
    addr: u64,
    steps: &mut Steps<L>,
) -> Result<Option<(usize, usize)>>
    ensures value { Repeats (λ r. r) result (first_kept units.now addr announcing.old.left) }
    ensures there { IfOk result
        (λ r. IfSome r (λ r. is_value (functions_at units.now r.0) ≡ true)) }
    ensures later { steps.old ≤ steps.new }
{
    loop {
        let number = match announcing.next_unit(steps) {
            Some(number) => number,
            None => return Ok(None),
        };
        match look::function_at(units, number, addr, steps) {
            Ok(Some(function)) => return Ok(Some((number, function))),
            Ok(None) => {},
            Err(fault) => return Err(fault),
        }
    }
}

/// Of the units that are still to be asked the first that has a line for an address.
fn first_location<'b, L: Ledger>(
    units: &[UnitCaches],
    announcing: &mut UnitsAt<'_>,
    texts: &Texts<'b>,
    addr: u64,
    steps: &mut Steps<L>,
) -> Result<Option<Location<'b>>>
    ensures value { Repeats (λ o. option_map location_view o) result
        (first_kept_line texts.now units.now addr announcing.old.left) }
    ensures later { steps.old ≤ steps.new }
{
    loop {
        let number = match announcing.next_unit(steps) {
            Some(number) => number,
            None => return Ok(None),
        };
        match look::location_at(units, texts, number, addr) {
            Ok(Some(location)) => return Ok(Some(location)),
            Ok(None) => {},
            Err(fault) => return Err(fault),
        }
    }
}

/// Of the units that announce an address the first that has a function for it.
fn function_of<L: Ledger>(
    units: &[UnitCaches],
    announcing: &mut UnitsAt<'_>,
    addr: u64,
    steps: &mut Steps<L>,
) -> Result<Option<(usize, usize)>>
    requires fresh { announcing.old.fresh ≡ true }
    requires without { LeavesOut [] (owners_of announcing.old.announced.ranges
        (covering (items_of announcing.old.announced.ranges) announcing.old.address))
        announcing.old.left }
    ensures value { Repeats (λ r. r) result (first_kept units.now addr announcing.old.left) }
    ensures there { IfOk result
        (λ r. IfSome r (λ r. is_value (functions_at units.now r.0) ≡ true)) }
    ensures cost { FewLooks announcing.old.announced units.now result (steps.new - steps.old) }
    ensures later { steps.old ≤ steps.new }
{
    let number = match announcing.next_unit(steps) {
        Some(number) => number,
        None => return Ok(None),
    };
    match look::function_at(units, number, addr, steps) {
        Ok(Some(function)) => Ok(Some((number, function))),
        Ok(None) => first_function(units, announcing, addr, steps),
        Err(fault) => Err(fault),
    }
}

impl Units {
    /// The function of an address, as `find_function` has it, from what is kept: it takes no memory. It looks at no more
    /// entries than two halvings need, where no two ranges share an address and both orders were accepted.
    pub fn find_function_prepared<L: Ledger>(
        &self,
        addr: u64,
        steps: &mut Steps<L>,
    ) -> Result<Option<(usize, usize)>>
        requires { units_prepared self.now ≡ true }
        ensures value { (f : Files) → UnitsFit f self.now
            → Exactly (λ r. r) result (or_invalid (function_at f (units_table self.now) addr)) }
        ensures there { IfOk result (λ r. IfSome r (λ r. functions_kept self.now r.0 ≡ true)) }
        ensures cost { LooksFew self.now result (steps.new - steps.old) }
        ensures later { steps.old ≤ steps.new }
    {
        let mut announcing = UnitsAt::once(&self.table.announced, addr);
        function_of(self.caches.units.as_slice(), &mut announcing, addr, steps)
    }

    /// The language of a unit, as `language` has it, from what is kept: it takes no memory.
    pub fn language_prepared(&self, unit: usize) -> Result<SrcLang>
        requires prepared { units_prepared self.now ≡ true }
        requires there { unit < length (units_table self.now).kept }
        ensures { (f : Files) → UnitsFit f self.now
            → Exactly (λ l. l) result (or_invalid (unit_language f (units_table self.now) unit)) }
    {
        look::language_of(self.caches.units.as_slice(), unit)
    }

    /// The place of an address in the sources, as `find_location` has it, from what is kept: it takes no memory.
    pub fn find_location_prepared<'b, L: Ledger>(
        &self,
        texts: &Texts<'b>,
        addr: u64,
        steps: &mut Steps<L>,
    ) -> Result<Option<Location<'b>>>
        requires { units_prepared self.now ≡ true }
        ensures value { (f : Files) → UnitsFit f self.now
            → Exactly (λ o. option_map location_view o) result
            (location_at texts.now f (units_table self.now) addr) }
        ensures later { steps.old ≤ steps.new }
    {
        let mut announcing = UnitsAt::once(&self.table.announced, addr);
        first_location(
            self.caches.units.as_slice(),
            &mut announcing,
            texts,
            addr,
            steps,
        )
    }
}
