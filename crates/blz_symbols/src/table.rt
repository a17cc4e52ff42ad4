//! A table of symbols, and its symbols in order.
ghost use Rattle.std.specs.Prelude.{◌≡◌, IfErr, IfOk, None, OnErr, OnOk, false, true, is_some};
ghost use Rattle.blz_model.specs.Part.{Exactly};
ghost use Rattle.blz_image.specs.Places.{SpanFits, span_in, symbols_in};
ghost use Rattle.blz_symbols.specs.Tables.{TableFits, table_view};
ghost use Rattle.blz_image.specs.SymbolTables.{table_named, table_of};
ghost use Rattle.blz_symbols.specs.SymbolRule.{covering};
ghost use Rattle.blz_image.specs.Sections.{raw_data, if_there};

use crate::question::Question;
use crate::scan::covering;
use crate::sorted::Sorted;
use blz_bytes::Orders;
use blz_error::{Error, ErrorKind, Result, Str};
use blz_image::image::Image;
use blz_image::record::Records;
use blz_image::section::{Section, raw};
use blz_image::span::{Rows, Span};
use blz_image::symbols::{Symbol, TableKind, symbols_of};
use std::alloc::{AllocError, Global};

/// A table of symbols, as places and numbers, and its symbols in order.
#[derive(Drop)]
pub struct Table {
    /// Where the symbols lie.
    pub symbols: Rows,
    /// Where the strings of their names lie.
    pub strings: Span,
    /// The symbols in order, once they were sorted.
    pub sorted: Option<Sorted>,
    /// Whether a symbol of an address was asked.
    pub asked: bool,
}

/// The place of the strings of a section.
fn strings_of(image: &[u8], section: Option<Section>) -> Result<Span>
    ensures value { Exactly (span_in image.now) result (if_there (raw_data image.now) section) }
    ensures fits { IfOk result (SpanFits image.now) }
{
    match section {
        None => Ok(Span { at: 0, len: 0 }),
        Some(section) => raw(image, &section),
    }
}

/// The table of the section of that name, with the strings of another.
#[tactic(auto, unfolding(blz_image::specs::SymbolTables::table_named))]
fn table_named(image: &Image<'_>, name: &str, strings_name: &str) -> Result<Table>
    ensures value { Exactly (table_view image.now.image) result
        (table_named image.now name.now strings_name.now) }
    ensures fits { IfOk result (TableFits image.now.image) }
    ensures unasked { IfOk result (λ t. (t.sorted ≡ None) × (t.asked ≡ false)) }
{
    let bytes = image.bytes();
    let symbols = symbols_of(bytes, image.section_called(name), image.format())?;
    let strings = strings_of(bytes, image.section_called(strings_name))?;
    Ok(Table {
        symbols,
        strings,
        sorted: None,
        asked: false,
    })
}

/// One of the two tables.
#[tactic(auto, unfolding(blz_image::specs::SymbolTables::symtab_of, blz_image::specs::SymbolTables::dynsym_of))]
pub fn read_table(image: &Image<'_>, kind: TableKind) -> Result<Table>
    ensures value { Exactly (table_view image.now.image) result (table_of kind image.now) }
    ensures fits { IfOk result (TableFits image.now.image) }
    ensures unasked { IfOk result (λ t. (t.sorted ≡ None) × (t.asked ≡ false)) }
{
    match kind {
        TableKind::Dynsym => table_named(image, ".dynsym", ".dynstr"),
        TableKind::Symtab => {
            let table = table_named(image, ".symtab", ".strtab")?;
            if table.symbols.count == 0 && image.find(".gnu_debugdata").is_some() {
                return Err(Error::new(ErrorKind::Unsupported, Str::fixed(".gnu_debugdata")));
            }
            Ok(table)
        },
    }
}

impl Table {
    /// Sorts the symbols, where they are not sorted yet.
    pub fn sort<O: Orders>(
        &mut self,
        alloc: Global,
        orders: &mut O,
        image: &[u8],
    ) -> std::result::Result<(), AllocError>
        requires { TableFits image.now self.old }
        ensures symbols { self.new.symbols ≡ self.old.symbols }
        ensures strings { self.new.strings ≡ self.old.strings }
        ensures fits { TableFits image.now self.new }
        ensures asked { self.new.asked ≡ self.old.asked }
        ensures before { is_some self.old.sorted ≡ true → self.new.sorted ≡ self.old.sorted }
        ensures sorted { IfOk result (λ _. is_some self.new.sorted ≡ true) }
        ensures refused { OnErr result (self.new.sorted ≡ self.old.sorted) }
    {
        if self.sorted.is_none() {
            self.sorted = Some(Sorted::read(alloc, orders, &Records::open(image, self.symbols))?);
        }
        Ok(())
    }

    /// Sorts the symbols when a second one is asked: the first is found by a scan, which costs less than an order.
    pub fn sort_from_second<O: Orders>(
        &mut self,
        alloc: Global,
        orders: &mut O,
        image: &[u8],
    ) -> std::result::Result<(), AllocError>
        requires { TableFits image.now self.old }
        ensures symbols { self.new.symbols ≡ self.old.symbols }
        ensures strings { self.new.strings ≡ self.old.strings }
        ensures fits { TableFits image.now self.new }
        ensures asked { self.new.asked ≡ true }
        ensures before { is_some self.old.sorted ≡ true → self.new.sorted ≡ self.old.sorted }
        ensures first { self.old.asked ≡ false → OnOk result (self.new.sorted ≡ self.old.sorted) }
        ensures sorted { IfOk result
            (λ _. self.old.asked ≡ true → is_some self.new.sorted ≡ true) }
        ensures refused { IfErr result
            (λ _. (self.old.asked ≡ true) × (self.new.sorted ≡ self.old.sorted)) }
    {
        if self.asked {
            return self.sort(alloc, orders, image);
        }
        self.asked = true;
        Ok(())
    }

    /// The symbol that answers a question.
    pub fn covering(&self, image: &[u8], question: &Question) -> Option<Symbol>
        requires { TableFits image.now self.now }
        ensures { result ≡ covering question.now (symbols_in image.now self.now.symbols) }
    {
        let symbols = Records::open(image, self.symbols);
        match &self.sorted {
            Some(sorted) => sorted.covering(&symbols, question),
            None => covering(&symbols, question),
        }
    }

    /// The strings of the symbols' names.
    pub fn strings_in<'b>(&self, image: &'b [u8]) -> &'b [u8]
        requires { TableFits image.now self.now }
        ensures { result.now ≡ span_in image.now self.now.strings }
    {
        &image[self.strings.at..self.strings.at + self.strings.len]
    }
}
