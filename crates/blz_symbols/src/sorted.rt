//! The symbols of the answered types, in order.
ghost use Rattle.std.specs.Prelude.{◌≡◌, ℕ, ◌<◌, ◌≤◌, true, List, length, map, filter, get_or, IfOk, IfSome};
ghost use Rattle.std.specs.Option.{option_map};
ghost use Rattle.blz_bytes.specs.ToldPlaces.{counting};
ghost use Rattle.blz_image.specs.SymbolTables.{is_typed};
ghost use Rattle.blz_symbols.specs.SymbolRule.{covering};
ghost use Rattle.blz_symbols.specs.Tables.{Sorts};
ghost use Rattle.blz_symbols.specs.Accepted.{AreKeys, no_symbol, value_at, SplitsAt, SplitsBelow};
ghost use Rattle.blz_symbols.specs.Needed.{IsSearchable};

use crate::needed::{needed_places, symbol_at_place};
use crate::question::Question;
use crate::scan::covering;
use blz_bytes::{Key, Orders, check_pairs};
use blz_image::symbols::{Symbol, Symbols};
use std::alloc::{AllocError, Global};

/// The symbols of the asked types, and an order of them that was accepted.
#[derive(Drop)]
pub struct Sorted {
    /// The symbols, in table order.
    pub typed: Vec<Symbol>,
    /// The places in it that a search needs, in order, where an order was accepted.
    pub order: Option<Vec<usize>>,
}

/// The value of the symbol at an index, 0 outside.
fn value_at(typed: &[Symbol], index: usize) -> u64
    ensures { result ≡ value_at typed.now index }
{
    match typed.get(index) {
        Some(symbol) => symbol.value,
        None => 0,
    }
}

/// How many places have a value up to an address.
fn count_up_to(typed: &[Symbol], places: &[usize], addr: u64) -> usize
    requires accepted { IsSearchable typed.now places.now }
    ensures { SplitsAt typed.now places.now result addr }
{
    places.partition_point(|index| value_at(typed, *index) <= addr)
}

/// How many places have a value below another.
fn count_below(typed: &[Symbol], places: &[usize], value: u64) -> usize
    requires accepted { IsSearchable typed.now places.now }
    ensures { SplitsBelow typed.now places.now result value }
{
    if value == 0 {
        return 0;
    }
    count_up_to(typed, places, value - 1)
}

/// The symbol that answers a question, by an order.
fn search(typed: &[Symbol], places: &[usize], question: &Question) -> Option<Symbol>
    requires accepted { IsSearchable typed.now places.now }
    requires typed { (i : ℕ) → i < length typed.now
        → is_typed (get_or typed.now i no_symbol) ≡ true }
    ensures { result ≡ covering question.now typed.now }
{
    let end = count_up_to(typed, places, question.addr);
    if end == 0 {
        return None;
    }
    let greatest = symbol_at_place(typed, places, end - 1).value;
    let begin = count_below(typed, places, greatest);
    for k in begin..end {
        let symbol = symbol_at_place(typed, places, k);
        if question.may_be_answered(&symbol) {
            return Some(symbol);
        }
    }
    None
}

/// The symbols of the answered types.
fn typed_of(alloc: Global, symbols: &Symbols<'_>) -> Result<Vec<Symbol>, AllocError>
    ensures { IfOk result (λ v. v.items ≡ filter is_typed symbols.now) }
{
    let mut typed = Vec::new(alloc);
    for i in 0..symbols.len() {
        let symbol = symbols.at(i);
        if symbol.is_typed() {
            typed.push(symbol)?;
        }
    }
    Ok(typed)
}

/// What each symbol is sorted by: its value, then its size downwards.
fn keys_of(alloc: Global, typed: &[Symbol]) -> Result<Vec<Key>, AllocError>
    ensures { IfOk result (λ v. AreKeys v.items typed.now) }
{
    let mut keys = Vec::new(alloc);
    for symbol in typed {
        keys.push(Key {
            first: symbol.value,
            second: u64::MAX - symbol.size,
        })?;
    }
    Ok(keys)
}

/// The places 0, 1, 2 and so on.
pub fn first_places(alloc: Global, count: usize) -> Result<Vec<usize>, AllocError>
    ensures { IfOk result (λ v. v.items ≡ counting count) }
{
    let mut places = Vec::with_capacity(alloc, count)?;
    for place in 0..count {
        places.push(place)?;
    }
    Ok(places)
}

/// An order, if the one that was handed in passes the check.
fn order_of<O: Orders>(
    alloc: Global,
    orders: &mut O,
    typed: &[Symbol],
) -> Result<Option<Vec<usize>>, AllocError>
    ensures { IfOk result (λ o. IfSome o (λ o. IsSearchable typed.now o.items)) }
{
    let keys = keys_of(alloc, typed)?;
    let mut places = first_places(alloc, keys.len())?;
    orders.by_pair(&keys, &mut places);
    if check_pairs(&keys, &places) {
        Ok(Some(needed_places(alloc, typed, &places)?))
    } else {
        Ok(None)
    }
}

impl Sorted {
    /// The symbols of the answered types, and the order that is handed in.
    pub fn read<O: Orders>(
        alloc: Global,
        orders: &mut O,
        symbols: &Symbols<'_>,
    ) -> Result<Sorted, AllocError>
        ensures { IfOk result (Sorts symbols.now) }
    {
        let typed = typed_of(alloc, symbols)?;
        let order = order_of(alloc, orders, &typed)?;
        Ok(Sorted { typed, order })
    }

    /// The symbol that answers a question: by the order, or by a scan.
    pub fn covering(&self, symbols: &Symbols<'_>, question: &Question) -> Option<Symbol>
        requires { Sorts symbols.now self.now }
        ensures { result ≡ covering question.now symbols.now }
    {
        match &self.order {
            Some(places) => search(&self.typed, places, question),
            None => covering(symbols, question),
        }
    }
}
