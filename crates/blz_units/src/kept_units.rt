//! The units of a file that are kept, and the ranges that they announce.
ghost use Rattle.std.specs.Prelude.{◌≡◌, ◌≤◌, ◌++◌, ◌∷◌, [], length, IfOk};
ghost use Rattle.blz_model.specs.Part.{Gives};
ghost use Rattle.blz_info.specs.Marks.{or_invalid};
ghost use Rattle.blz_units.specs.BuiltUnits.{files_view, IsReadable};
ghost use Rattle.blz_units.specs.KeptParts.{SideFits};
ghost use Rattle.blz_units.specs.declared.built_units.Side.TheVariants.{File};
ghost use Rattle.blz_ranges.specs.Owned.{owned, filled_up};
ghost use Rattle.blz_units.specs.UnitLists.{EndBefore, IsInPlace};
ghost use Rattle.blz_units.specs.UnitTables.{with_unit, no_units, units_kept};

use crate::announced::address_sets::AddressSets;
use crate::announced::announcing::append_announced;
use crate::built_units::SideUnits;
use crate::dwarf::Dwarf;
use crate::unit_list::UnitList;
use crate::words::HEADER_WORDS;
use blz_bytes::Room;
use blz_entry::{Span, UnitHeader, UnitHeaders};
use blz_error::Result;
use blz_ranges::own;
use std::alloc::{AllocError, Global};
use std::marker::Model;

/// The units that are kept so far, and what they announce.
#[derive(Drop)]
pub struct KeptUnits {
    kept: UnitList,
    spans: Vec<Span>,
    owners: Vec<usize>,
}

impl Model for KeptUnits {
    ghost use Rattle.std.specs.Prelude.{◌≡◌, length};
    ghost use Rattle.blz_ranges.specs.Owned.{owned};
    ghost use Rattle.blz_units.specs.UnitTables.{KeptUnits};

    ghost Value = { KeptUnits };

    ghost view = { λ k. record { kept = k.kept; announced = owned k.spans.items k.owners.items } };

    ghost invariant = { λ k. length k.spans.items ≡ length k.owners.items };
}

/// Keeps a unit, to which all ranges without an owner belong.
fn keep(
    mut kept: UnitList,
    spans: Vec<Span>,
    mut owners: Vec<usize>,
    header: UnitHeader,
) -> std::result::Result<KeptUnits, AllocError>
    requires in_place { IsInPlace header }
    requires behind { EndBefore kept header.start }
    requires some { length owners.items ≤ length spans.items }
    ensures { IfOk result (λ k. k ≡ record { kept = kept ++ header ∷ []; announced = owned spans.items (filled_up owners.items (length kept) (length spans.items)) }) }
{
    own(&mut owners, kept.len(), spans.len())?;
    kept.push(header)?;
    Ok(KeptUnits {
        kept,
        spans,
        owners,
    })
}

impl KeptUnits {
    fn new(alloc: Global) -> KeptUnits
        ensures { result ≡ no_units }
    {
        KeptUnits {
            kept: UnitList::new(alloc),
            spans: Vec::new(alloc),
            owners: Vec::new(alloc),
        }
    }

    /// One unit more, which stands behind the others.
    fn with_unit(
        self,
        alloc: Global,
        room: &mut Room,
        dwarf: &Dwarf<'_, '_>,
        sets: &AddressSets,
        built: &mut SideUnits,
        header: UnitHeader,
    ) -> Result<KeptUnits>
        requires readable { IsReadable dwarf.now }
        requires in_place { IsInPlace header }
        requires behind { EndBefore self.kept header.start }
        requires fits { SideFits (files_view dwarf.now) File self.kept built.old }
        ensures value { Gives (λ k. k) result
            (or_invalid (with_unit (files_view dwarf.now).main sets.now self header)) }
        ensures behind { IfOk result (λ k. EndBefore k.kept header.end) }
        ensures fits { IfOk result (λ k. SideFits (files_view dwarf.now) File k.kept built.new) }
    {
        room.take(HEADER_WORDS)?;
        let KeptUnits {
            kept,
            mut spans,
            owners,
        } = self;
        let shared = &mut built.shared;
        let part = append_announced(alloc, room, dwarf, sets, shared, &header, &mut spans)?;
        match part {
            Some(unit) => {
                let units = keep(kept, spans, owners, header)?;
                built.units.push(unit)?;
                Ok(units)
            },
            None => Ok(KeptUnits {
                kept,
                spans,
                owners,
            }),
        }
    }

    /// Reads the headers of all units, each with what it announces. Those that had to be built for that are given too.
    #[tactic(auto, using(crate::proofs::BuiltSteps::none_built))]
    pub fn read(
        alloc: Global,
        room: &mut Room,
        dwarf: &Dwarf<'_, '_>,
        sets: &AddressSets,
    ) -> Result<(KeptUnits, SideUnits)>
        requires { IsReadable dwarf.now }
        ensures value { Gives (λ r. r.0) result
            (or_invalid (units_kept (files_view dwarf.now).main sets.now)) }
        ensures fits { IfOk result (λ r. SideFits (files_view dwarf.now) File r.0.kept r.1) }
    {
        let mut headers = UnitHeaders::new(dwarf.main.info);
        let mut units = KeptUnits::new(alloc);
        let mut built = SideUnits::new(alloc);
        while let Some(header) = headers.next_header()? {
            units = units.with_unit(alloc, room, dwarf, sets, &mut built, header)?;
        }
        Ok((units, built))
    }

    /// The units, the ranges that they announce, and for each range the number of its unit.
    pub fn into_parts(self) -> (UnitList, Vec<Span>, Vec<usize>)
        ensures kept { result.0 ≡ self.kept }
        ensures announced { owned result.1.items result.2.items ≡ self.announced }
        ensures same { length result.1.items ≡ length result.2.items }
    {
        (self.kept, self.spans, self.owners)
    }
}
