//! The symbols of a table with their names.
ghost use Rattle.std.specs.Prelude.{◌≡◌, List, map, true, IfErr, IfOk, IfSome};
ghost use Rattle.std.specs.Option.{option_map};
ghost use Rattle.blz_model.specs.Part.{Exactly, Gives};
ghost use Rattle.blz_symbols.specs.NameOrders.{name_view, named_in};
ghost use Rattle.blz_symbols.specs.NameRule.{is_excluded, is_asked, read_name, asked_names};
ghost use Rattle.blz_symbols.specs.NameSteps.{named_view, passes, with_named, with_symbol};
ghost use Rattle.blz_image.specs.Places.{span_in};
ghost use Rattle.blz_symbols.specs.Tables.{TableFits, table_view};

use crate::question::Question;
use crate::table::Table;
use blz_bytes::NameSpan;
use blz_constants::elf::SHN_UNDEF;
use blz_error::{Error, ErrorKind, Result, Str};
use blz_image::record::Records;
use blz_image::symbols::{Symbol, TableKind};
use blz_image::text::{bytes_at, name};
use blz_records::SymType;
use std::alloc::{AllocError, Global};

/// A symbol, and the bytes of its name.
#[derive(Clone, Copy)]
pub struct NamedSymbol<'b> {
    /// The symbol.
    pub symbol: Symbol,
    /// Its name.
    pub name: &'b [u8],
}

/// A symbol, and where its name stands in the strings.
#[derive(Clone, Copy)]
pub struct SymbolName {
    /// The symbol.
    pub symbol: Symbol,
    /// Its name.
    pub name: NameSpan,
}

impl SymbolName {
    /// The symbol with the bytes of its name.
    pub fn named<'b>(&self, strings: &'b [u8]) -> NamedSymbol<'b>
        ensures { named_view result ≡ name_view strings.entry.now self.now }
    {
        NamedSymbol {
            symbol: self.symbol,
            name: self.name.text(strings),
        }
    }
}

/// Which symbols are listed.
#[derive(Clone, Copy)]
pub enum Wanted<'n> {
    /// Those of a name.
    Called(&'n str),
    /// Those of a type.
    OfType(SymType),
}

impl Wanted<'_> {
    fn takes(&self, named: &NamedSymbol<'_>) -> bool
        ensures { result ≡ passes self.now (named_view named.now) }
    {
        if named.symbol.section == SHN_UNDEF {
            return false;
        }
        match self {
            Wanted::Called(name) => named.name == name.as_bytes(),
            Wanted::OfType(sym_type) => named.symbol.matches(*sym_type),
        }
    }

    /// Lists a symbol, where it is wanted.
    pub fn list<'b>(
        &self,
        listed: &mut Vec<NamedSymbol<'b>>,
        named: NamedSymbol<'b>,
    ) -> std::result::Result<(), AllocError>
        ensures ok { IfOk result (λ _. map named_view listed.new.items ≡ with_named
            (passes self.now) (map named_view listed.old.items) (named_view named.entry)) }
        ensures err { IfErr result
            (λ _. (map named_view listed.new.items ≡ map named_view listed.old.items)
            × (passes self.now (named_view named.entry) ≡ true)) }
    {
        if self.takes(&named) {
            listed.push(named)?;
        }
        Ok(())
    }
}

/// Whether `.symtab` answers a symbol of the same type at the value of a dynamic one.
#[tactic(auto, unfolding(crate::specs::NameRule::is_excluded))]
fn is_excluded(image: &[u8], symtab: &Table, symbol: &Symbol) -> bool
    requires { TableFits image.now symtab.now }
    ensures { result ≡ is_excluded (table_view image.now symtab.now) symbol.now }
{
    let question = Question {
        table: TableKind::Symtab,
        addr: symbol.value,
        sym_type: symbol.sym_type(),
    };
    match symtab.covering(image, &question) {
        Some(found) => name(symtab.strings_in(image), found.name_offset).is_ok(),
        None => false,
    }
}

/// Whether the name of a symbol is read.
fn is_asked(image: &[u8], symtab: Option<&Table>, symbol: &Symbol) -> bool
    requires { IfSome symtab (λ t. TableFits image.now t.now) }
    ensures { result
        ≡ is_asked (option_map (λ t. table_view image.now t.now) symtab.entry) symbol.now }
{
    if !symbol.is_typed() {
        return false;
    }
    match symtab {
        Some(symtab) => !is_excluded(image, symtab, symbol),
        None => true,
    }
}

/// A symbol with the place of its name.
#[tactic(auto, unfolding(crate::specs::NameRule::read_name, blz_model::specs::Texts::name_bytes))]
fn read_name(strings: &[u8], symbol: &Symbol) -> Result<SymbolName>
    ensures { Exactly (name_view strings.now) result (read_name strings.now symbol.now) }
{
    match bytes_at(strings, symbol.name_offset) {
        Some(name) => Ok(SymbolName {
            symbol: *symbol,
            name: NameSpan {
                start: symbol.name_offset as usize,
                len: name.len(),
            },
        }),
        None => Err(Error::new(ErrorKind::InvalidInput, Str::fixed("invalid string table"))),
    }
}

/// Reads the name of a symbol, where it is asked.
#[tactic(auto, unfolding(crate::specs::NameSteps::with_symbol))]
fn ask_symbol(
    names: &mut Vec<SymbolName>,
    image: &[u8],
    symtab: Option<&Table>,
    strings: &[u8],
    symbol: &Symbol,
) -> Result<()>
    requires { IfSome symtab (λ t. TableFits image.now t.now) }
    ensures { Gives (λ _. named_in strings.now names.new.items) result
        (with_symbol (is_asked (option_map (λ t. table_view image.now t.now) symtab.entry))
        strings.now (named_in strings.now names.old.items) symbol.now) }
{
    if !is_asked(image, symtab, symbol) {
        return Ok(());
    }
    names.push(read_name(strings, symbol)?)?;
    Ok(())
}

/// The symbols of a table whose names are read, without those that another has too.
pub fn asked_names(
    alloc: Global,
    image: &[u8],
    symtab: Option<&Table>,
    table: &Table,
) -> Result<Vec<SymbolName>>
    requires symtab { IfSome symtab (λ t. TableFits image.now t.now) }
    requires table { TableFits image.now table.now }
    ensures { Gives (λ v. named_in (span_in image.now table.now.strings) v.items) result
        (asked_names (option_map (λ t. table_view image.now t.now) symtab.entry)
        (table_view image.now table.now)) }
{
    let symbols = Records::open(image, table.symbols);
    let strings = table.strings_in(image);
    let mut names = Vec::new(alloc);
    for i in 0..symbols.len() {
        ask_symbol(&mut names, image, symtab, strings, &symbols.at(i))?;
    }
    Ok(names)
}
