//! The places of an order of symbols that a search needs. Of many symbols of one value it keeps those few that may be
//! answered, so that no search goes through them all.
ghost use Rattle.std.specs.Prelude.{◌≡◌, ◌<◌, length, map, IfOk};
ghost use Rattle.std.specs.Bool.{OnTrue};
ghost use Rattle.blz_symbols.specs.Accepted.{at_place, IsAccepted};
ghost use Rattle.blz_symbols.specs.Needed.{AreInside, HasStandIn, IsSearchable, stands_for};

use blz_constants::elf::SHN_UNDEF;
use blz_image::symbols::Symbol;
use std::alloc::{AllocError, Global};

/// The symbol at the k-th place.
pub fn symbol_at_place(typed: &[Symbol], places: &[usize], k: usize) -> Symbol
    requires all { AreInside typed.now places.now }
    requires inside { k < length places.now }
    ensures { result ≡ at_place typed.now places.now k }
{
    typed[places[k]]
}

/// Whether a later symbol answers nothing that an earlier one of its value does not.
fn stands_for(earlier: &Symbol, later: &Symbol) -> bool
    ensures { result ≡ stands_for earlier.now later.now }
{
    earlier.value == later.value
        && (later.section == SHN_UNDEF
            || (earlier.section != SHN_UNDEF
                && earlier.kind == later.kind
                && (later.size != 0 || earlier.size == 0)))
}

/// Whether one of the kept places, from a number of them on, has a symbol that stands for another.
fn has_stand_in(typed: &[Symbol], kept: &[usize], from: usize, symbol: &Symbol) -> bool
    requires { AreInside typed.now kept.now }
    ensures { OnTrue result (HasStandIn typed.now kept.now symbol.now) }
{
    for k in from..kept.len() {
        if stands_for(&symbol_at_place(typed, kept, k), symbol) {
            return true;
        }
    }
    false
}

/// Whether the last of the kept places has another value.
fn is_new_value(typed: &[Symbol], kept: &[usize], symbol: &Symbol) -> bool
    requires { AreInside typed.now kept.now }
{
    let count = kept.len();
    count == 0 || symbol_at_place(typed, kept, count - 1).value != symbol.value
}

/// The places of an accepted order that a search needs.
pub fn needed_places(
    alloc: Global,
    typed: &[Symbol],
    places: &[usize],
) -> Result<Vec<usize>, AllocError>
    requires { IsAccepted typed.now places.now }
    ensures { IfOk result (λ v. IsSearchable typed.now v.items) }
{
    let mut kept = Vec::new(alloc);
    // where the places of the last value begin
    let mut from = 0;
    for k in 0..places.len() {
        let symbol = symbol_at_place(typed, places, k);
        if is_new_value(typed, &kept, &symbol) {
            from = kept.len();
        }
        if !has_stand_in(typed, &kept, from, &symbol) {
            kept.push(places[k])?;
        }
    }
    Ok(kept)
}
