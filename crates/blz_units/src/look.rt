//! What is told of units by what is kept of them; nothing here takes memory but the chain of calls.
ghost use Rattle.std.specs.Prelude.{◌≡◌, ◌+◌, ◌-◌, ◌*◌, ◌^◌, ◌≤◌, true, length, Option, option_map};
ghost use Rattle.std.specs.List.{slice_get};
ghost use Rattle.blz_model.specs.Part.{Gives};
ghost use Rattle.blz_info.specs.Marks.{or_invalid};
ghost use Rattle.blz_line.specs.Lookups.{location_view};
ghost use Rattle.blz_ranges.specs.Groups.{AreApart};
ghost use Rattle.blz_units.specs.KeptAnswers.{Repeats, kept_part, kept_language, kept_best, kept_place, kept_line, kept_chain, kept_site, has_order, ranges_in, value_in};
ghost use Rattle.blz_units.specs.KeptParts.{root_at, functions_at, lines_at, calls_at};
ghost use Rattle.blz_ranges.specs.Owned.{items_of};
ghost use Rattle.blz_ranges.specs.Ranges.{best_owner};
ghost use Rattle.blz_units.specs.UnitAnswers.{chosen};
ghost use Rattle.blz_units.specs.UnitSites.{site_in};

use crate::caches::UnitCaches;
use blz_bytes::{DirPath, Steps};
use blz_entry::{Texts, UnitRoot, invalid};
use blz_error::{Error, Result, Str};
use blz_functions::{Functions, InlinedFunction, InlinedFunctions};
use blz_line::{Lines, Location};
use blz_model::{Cache, SrcLang};
use std::alloc::Global;
use std::sync::ledger::Ledger;

/// A part that is kept.
fn kept<T>(cache: &Cache<T>) -> Result<&T>
    ensures { Repeats (λ x. x.now) result (kept_part cache.now) }
{
    match cache {
        Cache::Value(part) => Ok(part),
        Cache::Mark(kind) => Err(Error::new(*kind, Str::fixed("unit"))),
        Cache::Empty => Err(invalid("a unit has no such number")),
    }
}

/// The value that is kept, where one is.
fn value_of<T>(cache: &Cache<T>) -> Option<&T>
    ensures { option_map (λ x. x.now) result ≡ value_in cache.now }
{
    match cache {
        Cache::Value(part) => Some(part),
        Cache::Mark(_) | Cache::Empty => None,
    }
}

/// The functions of a unit, where they are kept as a value.
pub fn functions_there(units: &[UnitCaches], number: usize) -> Option<&Functions>
    ensures { option_map (λ x. x.now) result ≡ value_in (functions_at units.now number) }
{
    match units.get(number) {
        Some(unit) => value_of(&unit.functions),
        None => None,
    }
}

/// The calls of a function of a unit, where they are kept as a value.
pub fn calls_there(
    units: &[UnitCaches],
    number: usize,
    function: usize,
) -> Option<&InlinedFunctions>
    ensures { option_map (λ x. x.now) result ≡ value_in (calls_at units.now number function) }
{
    let Some(unit) = units.get(number) else {
        return None;
    };
    match unit.calls.get(function) {
        Some(calls) => value_of(calls),
        None => None,
    }
}

/// The root of a unit itself.
pub fn root_of(units: &[UnitCaches], number: usize) -> Result<UnitRoot>
    ensures { Repeats (λ r. r) result (kept_part (root_at units.now number)) }
{
    match units.get(number) {
        Some(unit) => Ok(*kept(&unit.root)?),
        None => Err(invalid("a unit has no such number")),
    }
}

/// The functions of a unit.
pub fn functions_of(units: &[UnitCaches], number: usize) -> Result<&Functions>
    ensures { Repeats (λ x. x.now) result (kept_part (functions_at units.now number)) }
{
    match units.get(number) {
        Some(unit) => kept(&unit.functions),
        None => Err(invalid("a unit has no such number")),
    }
}

/// The lines of a unit, where it has some.
pub fn lines_of(units: &[UnitCaches], number: usize) -> Result<&Option<Lines>>
    ensures { Repeats (λ x. x.now) result (kept_part (lines_at units.now number)) }
{
    match units.get(number) {
        Some(unit) => kept(&unit.lines),
        None => Err(invalid("a unit has no such number")),
    }
}

/// The calls of a function of a unit.
pub fn calls_of(units: &[UnitCaches], number: usize, function: usize) -> Result<&InlinedFunctions>
    ensures { Repeats (λ x. x.now) result (kept_part (calls_at units.now number function)) }
{
    let Some(unit) = units.get(number) else {
        return Err(invalid("a unit has no such number"));
    };
    match unit.calls.get(function) {
        Some(calls) => kept(calls),
        None => Err(invalid("a function has no such number")),
    }
}

/// The language of a unit.
pub fn language_of(units: &[UnitCaches], number: usize) -> Result<SrcLang>
    ensures { Repeats (λ l. l) result (kept_language units.now number) }
{
    let root = root_of(units, number)?;
    Ok(SrcLang::from_code(root.language))
}

/// The number of the function whose range is the best that covers an address.
fn best_function<L: Ledger>(functions: &Functions, addr: u64, steps: &mut Steps<L>) -> Option<usize>
    ensures best { result ≡ best_owner functions.now.ranges addr }
    ensures cost { functions.now.ordered ≡ true → AreApart (items_of functions.now.ranges)
        → 2 ^ (steps.new - steps.old) ≤ 4 * (2 * length functions.now.ranges + 1) }
    ensures later { steps.old ≤ steps.new }
{
    match functions.find_address(addr, steps) {
        Some(place) => functions.function_of(place),
        None => None,
    }
}

/// The number of the function of an address in a unit.
pub fn function_at<L: Ledger>(
    units: &[UnitCaches],
    number: usize,
    addr: u64,
    steps: &mut Steps<L>,
) -> Result<Option<usize>>
    ensures value { Repeats (λ n. n) result (kept_best units.now addr number) }
    ensures cost { has_order (functions_at units.now number) ≡ true
        → AreApart (items_of (ranges_in (functions_at units.now number)))
        → 2 ^ (steps.new - steps.old)
        ≤ 4 * (2 * length (ranges_in (functions_at units.now number)) + 1) }
    ensures later { steps.old ≤ steps.new }
{
    match functions_of(units, number) {
        Ok(functions) => Ok(best_function(functions, addr, steps)),
        Err(fault) => Err(fault),
    }
}

/// The place of the entry of a function of a unit.
pub fn function_place(units: &[UnitCaches], number: usize, function: usize) -> Result<usize>
    ensures { Repeats (λ p. p) result (kept_place units.now number function) }
{
    let functions = functions_of(units, number)?;
    match functions.functions().get(function) {
        Some(function) => Ok(function.place),
        None => Err(invalid("a function has no such number")),
    }
}

/// The place of an address in the sources, by the lines of a unit.
pub fn location_at<'b>(
    units: &[UnitCaches],
    texts: &Texts<'b>,
    number: usize,
    addr: u64,
) -> Result<Option<Location<'b>>>
    ensures { Repeats (λ o. option_map location_view o) result
        (kept_line texts.now units.now addr number) }
{
    match lines_of(units, number)? {
        Some(lines) => lines.find_location(texts, addr),
        None => Ok(None),
    }
}

fn call_at(calls: &[InlinedFunction], number: usize) -> Option<InlinedFunction>
    ensures { result ≡ slice_get calls.now number }
{
    calls.get(number).copied()
}

/// Some calls of a list by their numbers.
fn chosen(
    alloc: Global,
    calls: &[InlinedFunction],
    numbers: &[usize],
) -> Result<Vec<InlinedFunction>>
    ensures { Gives (λ v. v.items) result (or_invalid (chosen calls.now numbers.now)) }
{
    let mut some = Vec::new(alloc);
    for number in numbers {
        match call_at(calls, *number) {
            Some(call) => some.push(call)?,
            None => return Err(invalid("a call has no such number")),
        }
    }
    Ok(some)
}

/// The calls of a function of a unit that cover an address.
pub fn chain_at(
    alloc: Global,
    units: &[UnitCaches],
    number: usize,
    function: usize,
    addr: u64,
) -> Result<Vec<InlinedFunction>>
    ensures { Gives (λ v. v.items) result (kept_chain units.now addr number function) }
{
    let calls = calls_of(units, number, function)?;
    let numbers = calls.find_inlined_functions(alloc, addr)?;
    chosen(alloc, calls.calls(), numbers.as_slice())
}

/// The place of a call in a file.
fn call_in<'b>(call: &InlinedFunction, dir: DirPath<'b>, file: &'b [u8]) -> Location<'b>
    ensures { location_view result ≡ site_in call.now (dir.entry, file.entry.now) }
{
    Location {
        dir,
        file,
        line: Some(call.call_line),
        column: Some(call.call_column),
    }
}

/// The place of a call in the sources, by the lines of its function's unit; none where they have no such file.
pub fn site_at<'b>(
    units: &[UnitCaches],
    texts: &Texts<'b>,
    number: usize,
    call: &InlinedFunction,
    file: u64,
) -> Result<Option<Location<'b>>>
    ensures { Repeats (λ o. option_map location_view o) result
        (kept_site texts.now units.now number call.now file) }
{
    let Some(lines) = lines_of(units, number)? else {
        return Ok(None);
    };
    match lines.file(texts, file) {
        Some((dir, name)) => Ok(Some(call_in(call, dir, name))),
        None => Ok(None),
    }
}
