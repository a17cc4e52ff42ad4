//! The names of a table of symbols, and an order of them.
ghost use Rattle.std.specs.Prelude.{◌≡◌, ◌<◌, false, true, length, map, filter, IfOk, IfSome, OnErr};
ghost use Rattle.std.specs.Option.{option_map};
ghost use Rattle.std.specs.Ordering.{is_gt};
ghost use Rattle.blz_bytes.specs.NameOrder.{name_cmp};
ghost use Rattle.blz_model.specs.Part.{Gives};
ghost use Rattle.blz_symbols.specs.NameOrders.{AreSorted, NamesFit, OrderFits, SplitsNames, is_asked, listed_name, named_at, named_in, names_view, span_of};
ghost use Rattle.blz_symbols.specs.NameRule.{asked_names, is_called};
ghost use Rattle.blz_symbols.specs.NameSteps.{named_view, passes};
ghost use Rattle.blz_image.specs.Places.{SpanFits, span_in};
ghost use Rattle.blz_symbols.specs.Tables.{TableFits, table_view};

use crate::names::{NamedSymbol, SymbolName, Wanted, asked_names};
use crate::sorted::first_places;
use crate::table::Table;
use blz_bytes::{NameSpan, Orders, check_names};
use blz_image::span::Span;
use std::alloc::{AllocError, Global};

/// What is known of an order of names.
#[derive(Drop)]
pub enum NameOrder {
    /// None was asked for.
    Unasked,
    /// The one that was handed in did not pass the check.
    Refused,
    /// The places of the names in their order, which passed it.
    Accepted(Vec<usize>),
}

/// The symbols of a table whose names are read, in table order, and the order of the names.
#[derive(Drop)]
pub struct KeptNames {
    /// Where the strings lie.
    pub strings: Span,
    /// The symbols with their names.
    pub listed: Vec<SymbolName>,
    /// The order.
    pub order: NameOrder,
}

/// The places of the names.
fn spans_of(alloc: Global, listed: &[SymbolName]) -> Result<Vec<NameSpan>, AllocError>
    ensures { IfOk result (λ v. v.items ≡ map span_of listed.now) }
{
    let mut spans = Vec::new(alloc);
    for name in listed {
        spans.push(name.name)?;
    }
    Ok(spans)
}

/// The order of the names that is handed in, where it passes the check.
fn order_of<O: Orders>(
    alloc: Global,
    orders: &mut O,
    strings: &[u8],
    listed: &[SymbolName],
) -> Result<NameOrder, AllocError>
    ensures fits { IfOk result (OrderFits (named_in strings.now listed.now)) }
    ensures asked { IfOk result (λ o. is_asked o ≡ true) }
{
    let spans = spans_of(alloc, listed)?;
    let mut places = first_places(alloc, spans.len())?;
    orders.by_name(strings, &spans, &mut places);
    if check_names(strings, &spans, &places) {
        Ok(NameOrder::Accepted(places))
    } else {
        Ok(NameOrder::Refused)
    }
}

/// The symbol at the k-th place, with its name.
fn name_at_place<'b>(
    strings: &'b [u8],
    listed: &[SymbolName],
    places: &[usize],
    k: usize,
) -> NamedSymbol<'b>
    requires sorted { AreSorted (named_in strings.now listed.now) places.now }
    requires inside { k < length places.now }
    ensures { named_view result ≡ named_at (named_in strings.now listed.now) places.now k }
{
    listed[places[k]].named(strings)
}

/// The name at an index, empty outside.
fn listed_name<'b>(strings: &'b [u8], listed: &[SymbolName], index: usize) -> &'b [u8]
    ensures { result.now ≡ listed_name (named_in strings.entry.now listed.now) index }
{
    match listed.get(index) {
        Some(name) => name.named(strings).name,
        None => &[],
    }
}

/// Whether the name at an index is below another.
fn is_below(strings: &[u8], listed: &[SymbolName], index: usize, name: &[u8]) -> bool
    ensures { result
        ≡ is_gt (name_cmp name.now (listed_name (named_in strings.now listed.now) index)) }
{
    name.cmp(listed_name(strings, listed, index)).is_gt()
}

/// How many places have a name below another.
fn count_below(strings: &[u8], listed: &[SymbolName], places: &[usize], name: &[u8]) -> usize
    requires { AreSorted (named_in strings.now listed.now) places.now }
    ensures { SplitsNames (named_in strings.now listed.now) places.now result name.now }
{
    places.partition_point(|index| is_below(strings, listed, *index, name))
}

/// The symbols of a name, by an order.
fn search<'b>(
    alloc: Global,
    strings: &'b [u8],
    listed: &[SymbolName],
    places: &[usize],
    name: &str,
) -> Result<Vec<NamedSymbol<'b>>, AllocError>
    requires { AreSorted (named_in strings.now listed.now) places.now }
    ensures { IfOk result (λ v. map named_view v.items
        ≡ filter (is_called name.now) (named_in strings.now listed.now)) }
{
    let wanted = Wanted::Called(name);
    let begin = count_below(strings, listed, places, name.as_bytes());
    let mut found = Vec::new(alloc);
    for k in begin..places.len() {
        let named = name_at_place(strings, listed, places, k);
        if named.name != name.as_bytes() {
            return Ok(found);
        }
        wanted.list(&mut found, named)?;
    }
    Ok(found)
}

/// The wanted symbols, by a scan.
fn scan<'b>(
    alloc: Global,
    strings: &'b [u8],
    listed: &[SymbolName],
    wanted: &Wanted<'_>,
) -> Result<Vec<NamedSymbol<'b>>, AllocError>
    ensures { IfOk result (λ v. map named_view v.items
        ≡ filter (passes wanted.now) (named_in strings.now listed.now)) }
{
    let mut found = Vec::new(alloc);
    for name in listed {
        wanted.list(&mut found, name.named(strings))?;
    }
    Ok(found)
}

impl KeptNames {
    /// The names of a table's symbols, without those that another has too, in no order yet.
    pub fn read(
        alloc: Global,
        image: &[u8],
        symtab: Option<&Table>,
        table: &Table,
    ) -> blz_error::Result<KeptNames>
        requires symtab { IfSome symtab (λ t. TableFits image.now t.now) }
        requires table { TableFits image.now table.now }
        ensures value { Gives (names_view image.now) result
            (asked_names (option_map (λ t. table_view image.now t.now) symtab.entry)
            (table_view image.now table.now)) }
        ensures fits { IfOk result (NamesFit image.now) }
        ensures unasked { IfOk result (λ n. is_asked n.order ≡ false) }
    {
        Ok(KeptNames {
            strings: table.strings,
            listed: asked_names(alloc, image, symtab, table)?,
            order: NameOrder::Unasked,
        })
    }

    /// The bytes of the strings.
    fn strings_in<'b>(&self, image: &'b [u8]) -> &'b [u8]
        requires { SpanFits image.now self.now.strings }
        ensures { result.now ≡ span_in image.now self.now.strings }
    {
        &image[self.strings.at..self.strings.at + self.strings.len]
    }

    /// Asks for the order of the names, where none was asked for.
    pub fn sort<O: Orders>(
        &mut self,
        alloc: Global,
        orders: &mut O,
        image: &[u8],
    ) -> Result<(), AllocError>
        requires { NamesFit image.now self.old }
        ensures strings { self.new.strings ≡ self.old.strings }
        ensures listed { self.new.listed ≡ self.old.listed }
        ensures fits { NamesFit image.now self.new }
        ensures before { is_asked self.old.order ≡ true → self.new.order ≡ self.old.order }
        ensures asked { IfOk result (λ _. is_asked self.new.order ≡ true) }
        ensures refused { OnErr result (self.new.order ≡ self.old.order) }
    {
        if let NameOrder::Unasked = self.order {
            self.order = order_of(alloc, orders, self.strings_in(image), &self.listed)?;
        }
        Ok(())
    }

    /// The wanted symbols, in table order: those of a name by the order, where there is one, others by a scan.
    pub fn list<'b>(
        &self,
        alloc: Global,
        image: &'b [u8],
        wanted: &Wanted<'_>,
    ) -> Result<Vec<NamedSymbol<'b>>, AllocError>
        requires { NamesFit image.now self.now }
        ensures { IfOk result (λ v. map named_view v.items
            ≡ filter (passes wanted.now) (names_view image.now self.now)) }
    {
        let strings = self.strings_in(image);
        match (wanted, &self.order) {
            (Wanted::Called(name), NameOrder::Accepted(places)) => {
                search(alloc, strings, &self.listed, places, name)
            },
            _ => scan(alloc, strings, &self.listed, wanted),
        }
    }
}
