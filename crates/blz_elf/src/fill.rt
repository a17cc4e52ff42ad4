//! What is kept, filled and looked at one part at a time.
ghost use Rattle.std.specs.Prelude.{◌≡◌, true, IfOk, OnErr, OnOk};
ghost use Rattle.std.specs.Option.{option_map};
ghost use Rattle.blz_model.specs.Part.{Exactly};
ghost use Rattle.blz_model.specs.Kept.{is_kept};
ghost use Rattle.blz_image.specs.Headers.{header_of};
ghost use Rattle.blz_image.specs.Formats.{section_size};
ghost use Rattle.blz_image.specs.Images.{elf_of, image_sections};
ghost use Rattle.blz_image.specs.Places.{RowsFit, sections_in};
ghost use Rattle.blz_image.specs.Views.{header_view};
ghost use Rattle.blz_image.specs.declared.symbols.TableKind.TheVariants.{Symtab, Dynsym};
ghost use Rattle.blz_symbols.specs.SymbolRule.{symbol_for, table_answer, dynamic_answer, reason_for};
ghost use Rattle.blz_elf.specs.AnswerView.{answer_view};
ghost use Rattle.blz_image.specs.Frames.{FrameFits, frame_view};
ghost use Rattle.blz_symbols.specs.Tables.{TableKept};
ghost use Rattle.blz_elf.specs.Warm.{Fits, KeepsRelocations, KeepsTable, is_sorted};

use crate::answer::Answer;
use crate::lookup::answer_in;
use crate::warm::ElfWarm;
use blz_bytes::Orders;
use blz_error::{Error, ErrorKind, Result, Str};
use blz_image::header::Header;
use blz_image::image::{Frame, Image};
use blz_image::relocations::relocating::relocations;
use blz_image::span::Rows;
use blz_image::symbols::TableKind;
use blz_model::{Cache, Reason};
use blz_records::SymType;
use blz_relocations::SectionRelocations;
use blz_symbols::question::Question;
use blz_symbols::table::{Table, read_table};
use std::alloc::{AllocError, Global};

/// Sorts the symbols of a table that is kept, where they are not sorted yet.
#[tactic(auto, unfolding(blz_image::specs::SymbolTables::image_table))]
pub fn sort_table<O: Orders>(
    alloc: Global,
    orders: &mut O,
    image: &[u8],
    kind: TableKind,
    table: &mut Cache<Table>,
) -> std::result::Result<(), AllocError>
    requires { KeepsTable kind image.now table.old }
    ensures kept { KeepsTable kind image.now table.new }
    ensures filled { is_kept table.new ≡ is_kept table.old }
    ensures before { is_sorted table.old ≡ true → is_sorted table.new ≡ true }
    ensures sorted { IfOk result (λ _. is_kept table.old ≡ true → is_sorted table.new ≡ true) }
    ensures refused { OnErr result (table.new ≡ table.old) }
{
    if let Cache::Value(table) = table {
        table.sort(alloc, orders, image)?;
    }
    Ok(())
}

/// Sorts the symbols of a table that is kept, from the second question on.
#[tactic(auto, unfolding(blz_image::specs::SymbolTables::image_table))]
pub fn sort_from_second<O: Orders>(
    alloc: Global,
    orders: &mut O,
    image: &[u8],
    kind: TableKind,
    table: &mut Cache<Table>,
) -> std::result::Result<(), AllocError>
    requires { KeepsTable kind image.now table.old }
    ensures kept { KeepsTable kind image.now table.new }
    ensures filled { is_kept table.new ≡ is_kept table.old }
    ensures before { is_sorted table.old ≡ true → is_sorted table.new ≡ true }
    ensures refused { OnErr result (table.new ≡ table.old) }
{
    if let Cache::Value(table) = table {
        table.sort_from_second(alloc, orders, image)?;
    }
    Ok(())
}

/// Sorts the symbols of a table that is kept, by the image as it was read, where they are not sorted yet.
pub fn sort_kept<O: Orders>(
    alloc: Global,
    orders: &mut O,
    image: &Image<'_>,
    kind: TableKind,
    table: &mut Cache<Table>,
) -> std::result::Result<(), AllocError>
    requires { TableKept kind image.now table.old }
    ensures kept { TableKept kind image.now table.new }
    ensures filled { is_kept table.new ≡ is_kept table.old }
    ensures before { is_sorted table.old ≡ true → is_sorted table.new ≡ true }
    ensures sorted { IfOk result (λ _. is_kept table.old ≡ true → is_sorted table.new ≡ true) }
    ensures refused { OnErr result (table.new ≡ table.old) }
{
    if let Cache::Value(table) = table {
        table.sort(alloc, orders, image.bytes())?;
    }
    Ok(())
}

/// The answer of a table that is kept, where it has one.
#[tactic(auto, unfolding(blz_symbols::specs::SymbolRule::table_answer))]
pub fn look<'b>(
    alloc: Global,
    module_name: Option<&'b str>,
    image: &Image<'b>,
    kind: TableKind,
    table: &Cache<Table>,
    addr: u64,
) -> Result<Option<Answer<'b>>>
    requires kept { TableKept kind image.now table.now }
    requires full { is_kept table.now ≡ true }
    ensures { Exactly (option_map answer_view) result
        (table_answer (option_map (λ m. m.now) module_name.entry) image.now kind addr) }
{
    let question = Question {
        table: kind,
        addr,
        sym_type: SymType::Undefined,
    };
    match table {
        Cache::Value(table) => answer_in(alloc, module_name, image.bytes(), table, &question),
        Cache::Mark(kind) => Err(Error::new(*kind, Str::fixed("symbol table"))),
        Cache::Empty => unreachable!(),
    }
}

/// Why there is no symbol, by a table of `.symtab` that is kept.
#[tactic(auto, unfolding(blz_symbols::specs::SymbolRule::reason_for))]
fn reason(image: &Image<'_>, symtab: &Cache<Table>) -> Result<Reason>
    requires kept { TableKept Symtab image.now symtab.now }
    requires full { is_kept symtab.now ≡ true }
    ensures { Exactly (λ r. r) result (reason_for image.now) }
{
    match symtab {
        Cache::Value(table) if table.symbols.count == 0 => Ok(Reason::MissingSyms),
        Cache::Value(_) => Ok(Reason::UnknownAddr),
        Cache::Mark(kind) => Err(Error::new(*kind, Str::fixed("symbol table"))),
        Cache::Empty => unreachable!(),
    }
}

/// The answer of `.dynsym`, else the reason, by tables that are kept.
#[tactic(auto, unfolding(blz_symbols::specs::SymbolRule::dynamic_answer))]
pub fn look_dynamic<'b>(
    alloc: Global,
    module_name: Option<&'b str>,
    image: &Image<'b>,
    symtab: &Cache<Table>,
    dynsym: &Cache<Table>,
    addr: u64,
) -> Result<Answer<'b>>
    requires symtab { TableKept Symtab image.now symtab.now }
    requires dynsym { TableKept Dynsym image.now dynsym.now }
    requires full { is_kept symtab.now ≡ true }
    requires dynsym_full { is_kept dynsym.now ≡ true }
    ensures { Exactly answer_view result
        (dynamic_answer (option_map (λ m. m.now) module_name.entry) image.now addr) }
{
    match look(alloc, module_name, image, TableKind::Dynsym, dynsym, addr)? {
        Some(answer) => Ok(answer),
        None => Ok(Answer::NoSym(reason(image, symtab)?)),
    }
}

/// The symbol of an address, by tables that are kept.
#[tactic(auto, unfolding(blz_symbols::specs::SymbolRule::symbol_for))]
pub fn look_both<'b>(
    alloc: Global,
    module_name: Option<&'b str>,
    image: &Image<'b>,
    symtab: &Cache<Table>,
    dynsym: &Cache<Table>,
    addr: u64,
) -> Result<Answer<'b>>
    requires symtab { TableKept Symtab image.now symtab.now }
    requires dynsym { TableKept Dynsym image.now dynsym.now }
    requires full { is_kept symtab.now ≡ true }
    requires dynsym_full { is_kept dynsym.now ≡ true }
    ensures { Exactly answer_view result
        (symbol_for (option_map (λ m. m.now) module_name.entry) image.now addr) }
{
    match look(alloc, module_name, image, TableKind::Symtab, symtab, addr)? {
        Some(answer) => Ok(answer),
        None => look_dynamic(alloc, module_name, image, symtab, dynsym, addr),
    }
}

/// Reads a table where nothing is kept.
pub fn fill_table(table: &mut Cache<Table>, image: &Image<'_>, kind: TableKind)
    requires { TableKept kind image.now table.old }
    ensures kept { TableKept kind image.now table.new }
    ensures full { is_kept table.new ≡ true }
    ensures sorted { is_sorted table.old ≡ true → is_sorted table.new ≡ true }
{
    if let Cache::Empty = table {
        *table = match read_table(image, kind) {
            Ok(read) => Cache::Value(read),
            Err(e) => Cache::Mark(e.kind()),
        };
    }
}

/// Keeps the frame and both tables.
#[tactic(auto, unfolding(blz_image::specs::SymbolTables::image_table))]
pub fn fill(warm: &mut ElfWarm, image: &[u8], read: Result<Frame>)
    requires fits { Fits image.now warm.old }
    requires value { Exactly (frame_view image.now) read (elf_of image.now) }
    requires places { IfOk read (FrameFits image.now) }
    ensures fits { Fits image.now warm.new }
    ensures frame { is_kept warm.new.frame ≡ true }
    ensures symtab { is_kept warm.new.symtab ≡ true }
    ensures dynsym { is_kept warm.new.dynsym ≡ true }
    ensures prepared { warm.new.prepared ≡ warm.old.prepared }
    ensures relocations { warm.new.relocations ≡ warm.old.relocations }
{
    match read {
        Ok(frame) => {
            let parts = Image::open(image, frame);
            fill_table(&mut warm.symtab, &parts, TableKind::Symtab);
            fill_table(&mut warm.dynsym, &parts, TableKind::Dynsym);
            warm.frame = Cache::Value(frame);
        },
        Err(e) => {
            warm.frame = Cache::Mark(e.kind());
            warm.symtab = Cache::Mark(e.kind());
            warm.dynsym = Cache::Mark(e.kind());
        },
    }
}

/// Reads the relocations where nothing is kept, by the header and the section table.
#[tactic(auto, unfolding(blz_image::specs::RelocationTables::image_relocations, blz_image::specs::Images::image_sections))]
pub fn fill_relocations(
    alloc: Global,
    kept: &mut Cache<SectionRelocations>,
    image: &[u8],
    header: Result<Header>,
    rows: Result<Rows>,
) -> std::result::Result<(), AllocError>
    requires kept { KeepsRelocations image.now kept.old }
    requires header { Exactly header_view header (header_of image.now) }
    requires rows { Exactly (sections_in image.now) rows (image_sections image.now) }
    requires fits { IfOk rows (RowsFit section_size image.now) }
    ensures kept { KeepsRelocations image.now kept.new }
    ensures full { OnOk result (is_kept kept.new ≡ true) }
    ensures before { OnErr result (is_kept kept.new ≡ is_kept kept.old) }
{
    if let Cache::Empty = kept {
        *kept = relocations_part(alloc, image, header, rows)?;
    }
    Ok(())
}

/// What is kept of the relocations.
#[tactic(auto, unfolding(blz_image::specs::RelocationTables::image_relocations, blz_image::specs::Images::image_sections))]
fn relocations_part(
    alloc: Global,
    image: &[u8],
    header: Result<Header>,
    rows: Result<Rows>,
) -> std::result::Result<Cache<SectionRelocations>, AllocError>
    requires header { Exactly header_view header (header_of image.now) }
    requires rows { Exactly (sections_in image.now) rows (image_sections image.now) }
    requires fits { IfOk rows (RowsFit section_size image.now) }
    ensures kept { IfOk result (KeepsRelocations image.now) }
    ensures full { IfOk result (λ c. is_kept c ≡ true) }
{
    let header = match header {
        Ok(header) => header,
        Err(e) => return Ok(Cache::Mark(e.kind())),
    };
    let rows = match rows {
        Ok(rows) => rows,
        Err(e) => return Ok(Cache::Mark(e.kind())),
    };
    match relocations(alloc, image, header, rows) {
        Ok(map) => Ok(Cache::Value(map)),
        Err(e) if e.kind() == ErrorKind::OutOfMemory => Err(AllocError),
        Err(e) => Ok(Cache::Mark(e.kind())),
    }
}
