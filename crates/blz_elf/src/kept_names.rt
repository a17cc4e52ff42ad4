//! The names of both tables of symbols, filled and looked at.
ghost use Rattle.std.specs.Prelude.{◌≡◌, true, map, IfOk, OnErr};
ghost use Rattle.blz_model.specs.Part.{Exactly, Gives};
ghost use Rattle.blz_model.specs.Kept.{is_kept};
ghost use Rattle.blz_image.specs.declared.symbols.TableKind.TheVariants.{Symtab, Dynsym};
ghost use Rattle.blz_symbols.specs.NameOrders.{NamesFit, NamesKept, names_view};
ghost use Rattle.blz_symbols.specs.NameRule.{listed_names, names_read, symbol_names};
ghost use Rattle.blz_symbols.specs.NameSteps.{named_view, passes};
ghost use Rattle.blz_symbols.specs.Tables.{TableKept};
ghost use Rattle.blz_elf.specs.Warm.{KeepsFrame, KeepsNames, KeepsTable, is_sorted};

use crate::fill::{fill_table, sort_kept};
use blz_bytes::Orders;
use blz_error::{Error, ErrorKind, Result, Str};
use blz_image::image::{Frame, Image};
use blz_image::symbols::TableKind;
use blz_model::Cache;
use blz_symbols::name_order::KeptNames;
use blz_symbols::names::{NamedSymbol, Wanted};
use blz_symbols::table::Table;
use std::alloc::{AllocError, Global};

/// The names of `.symtab`.
#[tactic(auto, unfolding(blz_symbols::specs::NameRule::symbol_names))]
fn read_static(alloc: Global, image: &Image<'_>, symtab: &Cache<Table>) -> Result<KeptNames>
    requires kept { TableKept Symtab image.now symtab.now }
    requires full { is_kept symtab.now ≡ true }
    ensures value { Gives (names_view image.now.image) result (symbol_names Symtab image.now) }
    ensures fits { IfOk result (NamesFit image.now.image) }
{
    match symtab {
        Cache::Value(table) => KeptNames::read(alloc, image.bytes(), None, table),
        Cache::Mark(kind) => Err(Error::new(*kind, Str::fixed("symbol table"))),
        Cache::Empty => unreachable!(),
    }
}

/// The names of `.dynsym` that `.symtab` does not have.
#[tactic(auto, unfolding(blz_symbols::specs::NameRule::symbol_names))]
fn read_dynamic(
    alloc: Global,
    image: &Image<'_>,
    symtab: &Cache<Table>,
    dynsym: &Cache<Table>,
) -> Result<KeptNames>
    requires symtab { TableKept Symtab image.now symtab.now }
    requires symtab_full { is_kept symtab.now ≡ true }
    requires dynsym { TableKept Dynsym image.now dynsym.now }
    requires dynsym_full { is_kept dynsym.now ≡ true }
    ensures value { Gives (names_view image.now.image) result (symbol_names Dynsym image.now) }
    ensures fits { IfOk result (NamesFit image.now.image) }
{
    match (symtab, dynsym) {
        (Cache::Value(symtab), Cache::Value(dynsym)) => {
            KeptNames::read(alloc, image.bytes(), Some(symtab), dynsym)
        },
        (Cache::Mark(kind), _) => Err(Error::new(*kind, Str::fixed("symbol table"))),
        (_, Cache::Mark(kind)) => Err(Error::new(*kind, Str::fixed("dynamic symbol table"))),
        (Cache::Empty, _) | (_, Cache::Empty) => unreachable!(),
    }
}

/// Keeps what was read where nothing is kept; want of memory is not kept.
fn keep(
    image: &Image<'_>,
    kind: TableKind,
    names: &mut Cache<KeptNames>,
    read: Result<KeptNames>,
) -> std::result::Result<(), AllocError>
    requires value { Gives (names_view image.now.image) read (symbol_names kind image.now) }
    requires fits { IfOk read (NamesFit image.now.image) }
    requires kept { NamesKept kind image.now names.old }
    ensures kept { NamesKept kind image.now names.new }
    ensures full { IfOk result (λ _. is_kept names.new ≡ true) }
    ensures before { is_kept names.old ≡ true → is_kept names.new ≡ true }
    ensures refused { OnErr result (names.new ≡ names.old) }
{
    match read {
        Ok(read) => {
            *names = Cache::Value(read);
            Ok(())
        },
        Err(e) if e.kind() == ErrorKind::OutOfMemory => Err(AllocError),
        Err(e) => {
            *names = Cache::Mark(e.kind());
            Ok(())
        },
    }
}

/// Keeps `.symtab` and its names.
pub fn fill_static(
    alloc: Global,
    image: &Image<'_>,
    symtab: &mut Cache<Table>,
    names: &mut Cache<KeptNames>,
) -> std::result::Result<(), AllocError>
    requires symtab { TableKept Symtab image.now symtab.old }
    requires names { NamesKept Symtab image.now names.old }
    ensures symtab { TableKept Symtab image.now symtab.new }
    ensures symtab_full { is_kept symtab.new ≡ true }
    ensures symtab_sorted { is_sorted symtab.old ≡ true → is_sorted symtab.new ≡ true }
    ensures names { NamesKept Symtab image.now names.new }
    ensures names_full { IfOk result (λ _. is_kept names.new ≡ true) }
    ensures names_before { is_kept names.old ≡ true → is_kept names.new ≡ true }
    ensures refused { OnErr result (names.new ≡ names.old) }
{
    fill_table(symtab, image, TableKind::Symtab);
    if let Cache::Empty = names {
        let read = read_static(alloc, image, symtab);
        return keep(image, TableKind::Symtab, names, read);
    }
    Ok(())
}

/// Keeps `.dynsym` and its names, by the symbols of `.symtab`.
pub fn fill_dynamic<O: Orders>(
    alloc: Global,
    orders: &mut O,
    image: &Image<'_>,
    symtab: &mut Cache<Table>,
    dynsym: &mut Cache<Table>,
    names: &mut Cache<KeptNames>,
) -> std::result::Result<(), AllocError>
    requires symtab { TableKept Symtab image.now symtab.old }
    requires symtab_full { is_kept symtab.old ≡ true }
    requires dynsym { TableKept Dynsym image.now dynsym.old }
    requires names { NamesKept Dynsym image.now names.old }
    ensures symtab { TableKept Symtab image.now symtab.new }
    ensures symtab_sorted { is_sorted symtab.old ≡ true → is_sorted symtab.new ≡ true }
    ensures dynsym { TableKept Dynsym image.now dynsym.new }
    ensures dynsym_sorted { is_sorted dynsym.old ≡ true → is_sorted dynsym.new ≡ true }
    ensures names { NamesKept Dynsym image.now names.new }
    ensures names_full { IfOk result (λ _. is_kept names.new ≡ true) }
    ensures names_before { is_kept names.old ≡ true → is_kept names.new ≡ true }
    ensures refused { OnErr result (names.new ≡ names.old) }
{
    fill_table(dynsym, image, TableKind::Dynsym);
    if let Cache::Empty = names {
        sort_kept(alloc, orders, image, TableKind::Symtab, symtab)?;
        let read = read_dynamic(alloc, image, symtab, dynsym);
        return keep(image, TableKind::Dynsym, names, read);
    }
    Ok(())
}

/// Keeps the names of both tables of an image, as their value or their mark.
#[tactic(auto, unfolding(blz_symbols::specs::NameRule::image_symbol_names, blz_image::specs::SymbolTables::image_table))]
pub fn fill_names<O: Orders>(
    alloc: Global,
    orders: &mut O,
    image: &[u8],
    frame: &Cache<Frame>,
    symtab: &mut Cache<Table>,
    dynsym: &mut Cache<Table>,
    symtab_names: &mut Cache<KeptNames>,
    dynsym_names: &mut Cache<KeptNames>,
) -> std::result::Result<(), AllocError>
    requires frame { KeepsFrame image.now frame.now }
    requires frame_full { is_kept frame.now ≡ true }
    requires symtab { KeepsTable Symtab image.now symtab.old }
    requires dynsym { KeepsTable Dynsym image.now dynsym.old }
    requires symtab_names { KeepsNames Symtab image.now symtab_names.old }
    requires dynsym_names { KeepsNames Dynsym image.now dynsym_names.old }
    ensures symtab { KeepsTable Symtab image.now symtab.new }
    ensures symtab_sorted { is_sorted symtab.old ≡ true → is_sorted symtab.new ≡ true }
    ensures dynsym { KeepsTable Dynsym image.now dynsym.new }
    ensures dynsym_sorted { is_sorted dynsym.old ≡ true → is_sorted dynsym.new ≡ true }
    ensures symtab_names { KeepsNames Symtab image.now symtab_names.new }
    ensures dynsym_names { KeepsNames Dynsym image.now dynsym_names.new }
    ensures symtab_before { is_kept symtab_names.old ≡ true → is_kept symtab_names.new ≡ true }
    ensures dynsym_before { is_kept dynsym_names.old ≡ true → is_kept dynsym_names.new ≡ true }
    ensures symtab_full { IfOk result (λ _. is_kept symtab_names.new ≡ true) }
    ensures dynsym_full { IfOk result (λ _. is_kept dynsym_names.new ≡ true) }
{
    match frame {
        Cache::Value(frame) => {
            let parts = Image::open(image, *frame);
            fill_static(alloc, &parts, symtab, symtab_names)?;
            fill_dynamic(alloc, orders, &parts, symtab, dynsym, dynsym_names)
        },
        Cache::Mark(kind) => {
            *symtab_names = Cache::Mark(*kind);
            *dynsym_names = Cache::Mark(*kind);
            Ok(())
        },
        Cache::Empty => unreachable!(),
    }
}

/// Asks for the order of names that are kept, where none was asked for.
pub fn sort_names<O: Orders>(
    alloc: Global,
    orders: &mut O,
    image: &Image<'_>,
    kind: TableKind,
    names: &mut Cache<KeptNames>,
) -> std::result::Result<(), AllocError>
    requires { NamesKept kind image.now names.old }
    ensures kept { NamesKept kind image.now names.new }
    ensures filled { is_kept names.new ≡ is_kept names.old }
    ensures refused { OnErr result (names.new ≡ names.old) }
{
    if let Cache::Value(names) = names {
        names.sort(alloc, orders, image.bytes())?;
    }
    Ok(())
}

/// The same, where symbols of a name are wanted.
fn sort_for<O: Orders>(
    alloc: Global,
    orders: &mut O,
    image: &Image<'_>,
    kind: TableKind,
    names: &mut Cache<KeptNames>,
    wanted: &Wanted<'_>,
) -> std::result::Result<(), AllocError>
    requires { NamesKept kind image.now names.old }
    ensures kept { NamesKept kind image.now names.new }
    ensures filled { is_kept names.new ≡ is_kept names.old }
    ensures refused { OnErr result (names.new ≡ names.old) }
{
    match wanted {
        Wanted::Called(_) => sort_names(alloc, orders, image, kind, names),
        Wanted::OfType(_) => Ok(()),
    }
}

/// The wanted symbols, by names that are kept.
#[tactic(auto, unfolding(blz_symbols::specs::NameRule::listed_names))]
pub fn list_kept<'b>(
    alloc: Global,
    image: &Image<'b>,
    kind: TableKind,
    names: &Cache<KeptNames>,
    wanted: &Wanted<'_>,
) -> Result<Vec<NamedSymbol<'b>>>
    requires kept { NamesKept kind image.now names.now }
    requires full { is_kept names.now ≡ true }
    ensures { Gives (λ v. map named_view v.items) result
        (listed_names kind image.now (passes wanted.now)) }
{
    match names {
        Cache::Value(names) => Ok(names.list(alloc, image.bytes(), wanted)?),
        Cache::Mark(kind) => Err(Error::new(*kind, Str::fixed("names of symbols"))),
        Cache::Empty => unreachable!(),
    }
}

/// Whether names that are kept could be read.
#[tactic(auto, unfolding(blz_symbols::specs::NameRule::names_read))]
pub fn check_kept(image: &Image<'_>, kind: TableKind, names: &Cache<KeptNames>) -> Result<()>
    requires kept { NamesKept kind image.now names.now }
    requires full { is_kept names.now ≡ true }
    ensures { Exactly (λ u. u) result (names_read kind image.now) }
{
    match names {
        Cache::Value(_) => Ok(()),
        Cache::Mark(kind) => Err(Error::new(*kind, Str::fixed("names of symbols"))),
        Cache::Empty => unreachable!(),
    }
}

/// The wanted symbols of `.symtab`, whose names are kept from then on.
pub fn static_list<'b, O: Orders>(
    alloc: Global,
    orders: &mut O,
    image: &Image<'b>,
    symtab: &mut Cache<Table>,
    names: &mut Cache<KeptNames>,
    wanted: &Wanted<'_>,
) -> Result<Vec<NamedSymbol<'b>>>
    requires symtab { TableKept Symtab image.now symtab.old }
    requires names { NamesKept Symtab image.now names.old }
    ensures value { Gives (λ v. map named_view v.items) result
        (listed_names Symtab image.now (passes wanted.now)) }
    ensures symtab { TableKept Symtab image.now symtab.new }
    ensures symtab_full { is_kept symtab.new ≡ true }
    ensures symtab_sorted { is_sorted symtab.old ≡ true → is_sorted symtab.new ≡ true }
    ensures names { NamesKept Symtab image.now names.new }
    ensures names_before { is_kept names.old ≡ true → is_kept names.new ≡ true }
{
    fill_static(alloc, image, symtab, names)?;
    sort_for(alloc, orders, image, TableKind::Symtab, names, wanted)?;
    list_kept(alloc, image, TableKind::Symtab, names, wanted)
}

/// The wanted symbols of `.dynsym` that `.symtab` does not have, whose names are kept from then on.
pub fn dynamic_list<'b, O: Orders>(
    alloc: Global,
    orders: &mut O,
    image: &Image<'b>,
    symtab: &mut Cache<Table>,
    dynsym: &mut Cache<Table>,
    names: &mut Cache<KeptNames>,
    wanted: &Wanted<'_>,
) -> Result<Vec<NamedSymbol<'b>>>
    requires symtab { TableKept Symtab image.now symtab.old }
    requires symtab_full { is_kept symtab.old ≡ true }
    requires dynsym { TableKept Dynsym image.now dynsym.old }
    requires names { NamesKept Dynsym image.now names.old }
    ensures value { Gives (λ v. map named_view v.items) result
        (listed_names Dynsym image.now (passes wanted.now)) }
    ensures symtab { TableKept Symtab image.now symtab.new }
    ensures symtab_sorted { is_sorted symtab.old ≡ true → is_sorted symtab.new ≡ true }
    ensures dynsym { TableKept Dynsym image.now dynsym.new }
    ensures dynsym_sorted { is_sorted dynsym.old ≡ true → is_sorted dynsym.new ≡ true }
    ensures names { NamesKept Dynsym image.now names.new }
    ensures names_before { is_kept names.old ≡ true → is_kept names.new ≡ true }
{
    fill_dynamic(alloc, orders, image, symtab, dynsym, names)?;
    sort_for(alloc, orders, image, TableKind::Dynsym, names, wanted)?;
    list_kept(alloc, image, TableKind::Dynsym, names, wanted)
}
