//! What is read of units is put where it is kept.
ghost use Rattle.std.specs.Prelude.{◌≡◌, ℕ, ◌<◌, length, IfOk};
ghost use Rattle.std.specs.List.{slice_get};
ghost use Rattle.blz_units.specs.KeptParts.{or_empty};
ghost use Rattle.blz_reader.specs.Putting.{with_functions, with_lines, with_root, Puts, PutsOrKeeps, TakesCalls};

use blz_bytes::Room;
use blz_entry::UnitRoot;
use blz_functions::{Functions, InlinedFunctions};
use blz_line::Lines;
use blz_model::Cache;
use blz_units::caches::UnitCaches;
use std::alloc::AllocError;

/// Keeps the root of a unit.
pub fn put_root(units: &mut Vec<UnitCaches>, number: usize, root: Cache<UnitRoot>)
    ensures { Puts (with_root root) units.old.items units.new.items number }
{
    if number < units.len() {
        let unit = &mut units[number];
        unit.root = root;
    }
}

/// Keeps the functions of a unit.
pub fn put_functions(units: &mut Vec<UnitCaches>, number: usize, functions: Cache<Functions>)
    ensures { Puts (with_functions functions) units.old.items units.new.items number }
{
    if number < units.len() {
        let unit = &mut units[number];
        unit.functions = functions;
    }
}

/// Keeps the lines of a unit.
pub fn put_lines(units: &mut Vec<UnitCaches>, number: usize, lines: Cache<Option<Lines>>)
    ensures { Puts (with_lines lines) units.old.items units.new.items number }
{
    if number < units.len() {
        let unit = &mut units[number];
        unit.lines = lines;
    }
}

/// The words that the cache of a function's calls takes.
const CALLS: u64 = 20;

/// A list that is long enough for a number, with empty caches behind the others.
fn lengthen(
    room: &mut Room,
    calls: &mut Vec<Cache<InlinedFunctions>>,
    number: usize,
) -> Result<(), AllocError>
    ensures long { IfOk result (λ _. number < length calls.new.items) }
    ensures same { (n : ℕ)
        → or_empty (slice_get calls.new.items n) ≡ or_empty (slice_get calls.old.items n) }
{
    while calls.len() <= number {
        room.take(CALLS)?;
        calls.push(Cache::Empty)?;
    }
    Ok(())
}

/// Puts the calls of a function of a unit that is there.
fn put_in(
    room: &mut Room,
    unit: &mut UnitCaches,
    function: usize,
    calls: Cache<InlinedFunctions>,
) -> Result<(), AllocError>
    ensures { TakesCalls result unit.old unit.new function calls }
{
    lengthen(room, &mut unit.calls, function)?;
    unit.calls[function] = calls;
    Ok(())
}

/// Puts the calls of a function of a unit. For want of memory no calls are changed.
pub fn put_calls(
    room: &mut Room,
    units: &mut Vec<UnitCaches>,
    number: usize,
    function: usize,
    calls: Cache<InlinedFunctions>,
) -> Result<(), AllocError>
    ensures { PutsOrKeeps result units.old.items units.new.items number function calls }
{
    if number >= units.len() {
        return Ok(());
    }
    put_in(room, &mut units[number], function, calls)
}
