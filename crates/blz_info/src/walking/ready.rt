//! An abbreviation that is ready to walk over its entries.
ghost use Rattle.std.specs.Prelude.{◌≡◌, ◌≤◌, ◌<◌, ◌+◌, ◌^◌, length, drop, IfSome, IfOk, MatchOption, option_map};
ghost use Rattle.blz_info.specs.Contents.{section_view, StaysIn};
ghost use Rattle.blz_info.specs.AttributeRuns.{Reads, IsReady};
ghost use Rattle.blz_info.specs.Wanted.{wanted_in, met_view};

use crate::abbreviations::AttrSpec;
use crate::encoding::Encoding;
use crate::section::Section;
use crate::text::StrBase;
use crate::walking::runs::{Runs, wanted_by};
use crate::walking::wanted::{Met, any_placing, wanted_in};
use blz_constants::dwarf;
use std::alloc::{AllocError, Global};

// more attributes than an entry has that a compiler wrote
const MANY: usize = 24;

/// The attributes of an abbreviation in runs for one encoding: where they are passed over, and where those that are
/// wanted are read, as those of functions and inlined calls are, and those of other entries where they are many.
#[derive(Drop)]
pub struct Ready {
    pub(crate) encoding: Encoding,
    pub(crate) passing: Runs,
    pub(crate) reading: Option<Runs>,
    /// One of them tells addresses or refers to an entry.
    pub(crate) placing: bool,
}

fn reading_of(
    alloc: Global,
    tag: u64,
    specs: &[AttrSpec],
    encoding: Encoding,
) -> Result<Option<Runs>, AllocError>
    ensures { IfOk result (λ o. IfSome o (λ r. Reads encoding 0 r specs.now)) }
{
    match tag {
        dwarf::DW_TAG_subprogram | dwarf::DW_TAG_inlined_subroutine => {}
        // few are read as fast one by one
        _ if specs.len() <= MANY => return Ok(None),
        _ => {}
    }
    let runs = Runs::of(alloc, specs, encoding, true)?;
    Ok(Some(runs))
}

impl Ready {
    pub(crate) fn of(
        alloc: Global,
        tag: u64,
        specs: &[AttrSpec],
        encoding: Encoding,
    ) -> Result<Ready, AllocError>
        ensures { IfOk result (λ r. IsReady r specs.now) }
    {
        let passing = Runs::of(alloc, specs, encoding, false)?;
        let reading = reading_of(alloc, tag, specs, encoding)?;
        Ok(Ready {
            encoding,
            passing,
            reading,
            placing: any_placing(specs),
        })
    }
}

/// The next wanted attribute of those that are left of an entry, by runs where they are read by them; how many of the runs
/// are taken then, and 0 where none may be taken any more.
#[inline(always)]
pub(crate) fn next_wanted(
    reading: Option<&Runs>,
    taken: usize,
    pending: &[AttrSpec],
    encoding: Encoding,
    base: StrBase,
    section: &Section<'_, '_>,
    at: usize,
) -> Option<Met>
    requires texts { base.start + length section.now.bytes.now < 2 ^ 64 }
    requires reads { IfSome reading (λ r. Reads encoding taken r.now pending.now) }
    ensures value { option_map (met_view pending.now) result
        ≡ wanted_in pending.now encoding base (section_view section.now) at }
    ensures counted { IfSome result (λ m. m.count ≤ length pending.now) }
    ensures left { IfSome result (λ m. 0 < m.runs
        → IfSome reading.entry (λ r. Reads encoding m.runs r.now (drop m.count pending.now))) }
    ensures some { IfSome result
        (λ m. MatchOption m.found (m.count ≡ length pending.now) (λ _. 0 < m.count)) }
    ensures within { IfSome result (λ m. StaysIn section.now.bytes.now at m.place) }
{
    match reading {
        Some(runs) => wanted_after(runs, taken, pending, encoding, base, section, at),
        None => wanted_in(pending, encoding, base, section, at),
    }
}

/// The same behind so many runs that were taken.
#[inline(always)]
fn wanted_after(
    runs: &Runs,
    taken: usize,
    pending: &[AttrSpec],
    encoding: Encoding,
    base: StrBase,
    section: &Section<'_, '_>,
    at: usize,
) -> Option<Met>
    requires texts { base.start + length section.now.bytes.now < 2 ^ 64 }
    requires reads { Reads encoding taken runs.now pending.now }
    ensures value { option_map (met_view pending.now) result
        ≡ wanted_in pending.now encoding base (section_view section.now) at }
    ensures counted { IfSome result (λ m. m.count ≤ length pending.now) }
    ensures left { IfSome result
        (λ m. 0 < m.runs → Reads encoding m.runs runs.now (drop m.count pending.now)) }
    ensures some { IfSome result
        (λ m. MatchOption m.found (m.count ≡ length pending.now) (λ _. 0 < m.count)) }
    ensures within { IfSome result (λ m. StaysIn section.now.bytes.now at m.place) }
{
    let tail = runs.tail;
    let left = &runs.runs[taken..];
    let met = wanted_by(left, tail, pending, encoding, base, section, at)?;
    match met.found {
        None => Some(met),
        Some(_) => Some(Met {
            runs: taken + met.runs,
            ..met
        }),
    }
}
