//! The attributes of an abbreviation in runs: some whose bytes are fixed, and one behind them that is looked at.
ghost use Rattle.std.specs.Prelude.{◌≡◌, ◌≤◌, ◌<◌, ◌+◌, ◌^◌, ◌&&◌, length, drop, true, IfSome, IfOk, MatchOption, option_map};
ghost use Rattle.blz_info.specs.Contents.{section_view, StaysIn};
ghost use Rattle.blz_info.specs.Attributes.{attribute};
ghost use Rattle.blz_info.specs.Wanted.{is_wanted, wanted_in, met_view};
ghost use Rattle.blz_info.specs.AttributeRuns.{wants, skipped_size, form_at, behind_by, value_by_form, passed_by, AreRuns, run_of};

use crate::abbreviations::AttrSpec;
use crate::attributes::{attribute, form_for};
use crate::encoding::Encoding;
use crate::forms::behind::{behind, behind_form, over, size_of};
use crate::forms::form::{Form, form_of};
use crate::forms::value::{AttrValue, value_by};
use crate::section::Section;
use crate::text::StrBase;
use crate::walking::wanted::{Met, is_wanted};
use blz_constants::dwarf;
use std::alloc::{AllocError, Global};

/// Some attributes whose bytes are fixed, and one behind them: its size is told by its bytes alone, or its value is
/// wanted.
#[derive(Clone, Copy)]
pub struct Run {
    /// The bytes of those before it.
    skip: usize,
    /// How many those are.
    count: usize,
    /// The one behind them.
    spec: AttrSpec,
    /// How its form is read, where the table of forms tells.
    form: Option<Form>,
    /// Its value is wanted.
    wanted: bool,
}

/// Attributes in runs for one encoding, and the bytes of those behind the last run.
#[derive(Drop)]
pub struct Runs {
    pub(crate) runs: Vec<Run>,
    pub(crate) tail: usize,
}

fn wants(reading: bool, spec: AttrSpec) -> bool
    ensures { result ≡ wants reading spec }
{
    reading && is_wanted(spec.name)
}

/// The bytes of an attribute that is not looked at.
fn skipped_size(reading: bool, spec: AttrSpec, encoding: Encoding) -> Option<usize>
    ensures { result ≡ skipped_size reading spec encoding }
{
    if wants(reading, spec) {
        return None;
    }
    if spec.form == dwarf::DW_FORM_implicit_const {
        return Some(0);
    }
    match form_of(spec.form)? {
        Form::Numeric(field, _) => size_of(field, encoding),
        Form::Signed | Form::Text => None,
    }
}

fn form_at(spec: AttrSpec, encoding: Encoding) -> Option<Form>
    ensures { result ≡ form_at spec encoding }
{
    match spec.form {
        dwarf::DW_FORM_implicit_const | dwarf::DW_FORM_indirect => None,
        code => form_for(spec.name, encoding, code),
    }
}

fn run_of(reading: bool, encoding: Encoding, skip: usize, count: usize, spec: AttrSpec) -> Run
    ensures { result ≡ run_of reading encoding skip count spec }
{
    Run {
        skip,
        count,
        spec,
        form: form_at(spec, encoding),
        wanted: wants(reading, spec),
    }
}

impl Run {
    fn behind(&self, encoding: Encoding, section: &Section<'_, '_>, at: usize) -> Option<usize>
        ensures value { result
            ≡ behind_by self.now.form self.now.spec encoding (section_view section.now) at }
        ensures within { IfSome result (λ n. StaysIn section.now.bytes.now at n) }
    {
        match self.form {
            Some(form) => behind_form(form, encoding, section, at),
            None => behind(self.spec, encoding, section, at),
        }
    }

    #[inline(always)]
    fn value(
        &self,
        encoding: Encoding,
        base: StrBase,
        section: &Section<'_, '_>,
        at: usize,
    ) -> Option<(AttrValue, usize)>
        requires { base.start + length section.now.bytes.now < 2 ^ 64 }
        ensures value { result ≡ value_by_form self.now.form self.now.spec encoding base
            (section_view section.now) at }
        ensures within { IfSome result (λ r. StaysIn section.now.bytes.now at r.1) }
    {
        // each result is taken apart, since one that a call writes would stand in memory
        match self.form {
            Some(form) => value_by(form, encoding, base, section, at),
            None => {
                let (value, next) = attribute(self.spec, encoding, base, section, at)?;
                Some((value, next))
            }
        }
    }
}

impl Runs {
    /// Attributes in runs; `reading` says that the values of some are wanted.
    pub(crate) fn of(
        alloc: Global,
        specs: &[AttrSpec],
        encoding: Encoding,
        reading: bool,
    ) -> Result<Runs, AllocError>
        ensures { IfOk result (λ r. AreRuns reading encoding r.runs.items r.tail specs.now) }
    {
        let mut runs = Vec::new(alloc);
        let mut tail: usize = 0;
        let mut count: usize = 0;
        for spec in specs {
            if let Some(size) = skipped_size(reading, *spec, encoding)
                && let Some(more) = tail.checked_add(size)
            {
                tail = more;
                count += 1;
                continue;
            }
            let run = run_of(reading, encoding, tail, count, *spec);
            runs.push(run)?;
            tail = 0;
            count = 0;
        }
        Ok(Runs { runs, tail })
    }
}

/// The place behind runs and what is behind them.
#[inline(always)]
pub(crate) fn passed_by(
    runs: &[Run],
    tail: usize,
    encoding: Encoding,
    section: &Section<'_, '_>,
    at: usize,
) -> Option<usize>
    ensures value { result ≡ passed_by runs.now tail encoding (section_view section.now) at }
    ensures within { IfSome result (λ n. StaysIn section.now.bytes.now at n) }
{
    let mut place = at;
    for run in runs {
        let start = over(run.skip, section.bytes, place)?;
        let next = run.behind(encoding, section, start)?;
        place = next;
    }
    over(tail, section.bytes, place)
}

/// The same out of line, so that a walk that seldom needs it keeps what it holds out of memory.
#[inline(never)]
pub(crate) fn passed_by_runs(
    runs: &Runs,
    encoding: Encoding,
    section: &Section<'_, '_>,
    at: usize,
) -> Option<usize>
    ensures value { result
        ≡ passed_by runs.now.runs.items runs.now.tail encoding (section_view section.now) at }
    ensures within { IfSome result (λ n. StaysIn section.now.bytes.now at n) }
{
    passed_by(&runs.runs, runs.tail, encoding, section, at)
}

/// The next wanted attribute of those that runs were made from.
#[inline(always)]
pub(crate) fn wanted_by(
    runs: &[Run],
    tail: usize,
    pending: &[AttrSpec],
    encoding: Encoding,
    base: StrBase,
    section: &Section<'_, '_>,
    at: usize,
) -> Option<Met>
    requires texts { base.start + length section.now.bytes.now < 2 ^ 64 }
    requires runs { AreRuns true encoding runs.now tail pending.now }
    ensures value { option_map (met_view pending.now) result
        ≡ wanted_in pending.now encoding base (section_view section.now) at }
    ensures counted { IfSome result
        (λ m. (m.count ≤ length pending.now) × (m.runs ≤ length runs.now)) }
    ensures left { IfSome result (λ m. IfSome m.found
        (λ _. AreRuns true encoding (drop m.runs runs.now) tail (drop m.count pending.now))) }
    ensures some { IfSome result (λ m. MatchOption m.found
        ((m.count ≡ length pending.now) × (m.runs ≡ 0)) (λ _. 0 < m.count)) }
    ensures within { IfSome result (λ m. StaysIn section.now.bytes.now at m.place) }
{
    let mut place = at;
    let mut count: usize = 0;
    for (index, run) in runs.iter().enumerate() {
        let start = over(run.skip, section.bytes, place)?;
        let counted = count + run.count + 1;
        if run.wanted {
            let (value, next) = run.value(encoding, base, section, start)?;
            return Some(Met {
                found: Some((run.spec.name, value)),
                count: counted,
                runs: index + 1,
                place: next,
            });
        }
        let next = run.behind(encoding, section, start)?;
        place = next;
        count = counted;
    }
    let place = over(tail, section.bytes, place)?;
    Some(Met {
        found: None,
        count: pending.len(),
        runs: 0,
        place,
    })
}
