//! What is kept of units.
ghost use Rattle.std.specs.Prelude.{◌≡◌, ◌<◌, Some};
ghost use Rattle.std.specs.List.{slice_get};
ghost use Rattle.blz_units.specs.declared.caches.UnitCaches.{UnitCaches};
ghost use Rattle.blz_units.specs.KeptParts.{is_empty, lacks_root, lacks_functions, lacks_lines, lacks_calls};

use crate::built_units::BuiltUnits;
use blz_bytes::Room;
use blz_entry::UnitRoot;
use blz_functions::{Functions, InlinedFunctions};
use blz_line::Lines;
use blz_model::Cache;

/// What was read of a unit.
#[derive(Drop)]
pub struct UnitCaches {
    /// The root of the unit itself, which tells its language and where its lines are.
    pub root: Cache<UnitRoot>,
    /// Its functions, from its split unit where it has one.
    pub functions: Cache<Functions>,
    /// Its lines, where it has some.
    pub lines: Cache<Option<Lines>>,
    /// The calls of each function up to the last that was asked for.
    pub calls: Vec<Cache<InlinedFunctions>>,
}

/// What was read of all units, and how much may still be read.
#[derive(Drop)]
pub struct Caches {
    pub built: BuiltUnits,
    pub units: Vec<UnitCaches>,
    pub room: Room,
}

/// Whether nothing is kept.
fn is_empty<T>(cache: &Cache<T>) -> bool
    ensures { result ≡ is_empty cache.now }
{
    match cache {
        Cache::Empty => true,
        Cache::Value(_) | Cache::Mark(_) => false,
    }
}

/// Whether the root of a unit is not kept yet.
pub fn lacks_root(units: &[UnitCaches], number: usize) -> bool
    ensures { result ≡ lacks_root (slice_get units.now number) }
{
    match units.get(number) {
        Some(unit) => is_empty(&unit.root),
        None => false,
    }
}

/// Whether the functions of a unit are not kept yet.
pub fn lacks_functions(units: &[UnitCaches], number: usize) -> bool
    ensures { result ≡ lacks_functions (slice_get units.now number) }
{
    match units.get(number) {
        Some(unit) => is_empty(&unit.functions),
        None => false,
    }
}

/// Whether the lines of a unit are not kept yet.
pub fn lacks_lines(units: &[UnitCaches], number: usize) -> bool
    ensures { result ≡ lacks_lines (slice_get units.now number) }
{
    match units.get(number) {
        Some(unit) => is_empty(&unit.lines),
        None => false,
    }
}

/// Whether the calls of a function of a unit are not kept yet.
pub fn lacks_calls(units: &[UnitCaches], number: usize, function: usize) -> bool
    ensures { result ≡ lacks_calls (slice_get units.now number) function }
{
    let Some(unit) = units.get(number) else {
        return false;
    };
    match unit.calls.get(function) {
        Some(calls) => is_empty(calls),
        None => true,
    }
}
