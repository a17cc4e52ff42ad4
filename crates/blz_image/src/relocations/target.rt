//! The relocations of one section, each place of the image read once.
ghost use Rattle.std.specs.Prelude.{◌≡◌, OnOk, IfOk};
ghost use Rattle.blz_model.specs.Part.{Good};
ghost use Rattle.blz_image.specs.EntryPlaces.{entries_in};
ghost use Rattle.blz_image.specs.EntryViews.{entry_view};
ghost use Rattle.blz_image.specs.Places.{symbols_in};
ghost use Rattle.blz_image.specs.ReadPlaces.{AllRead, AreRead, is_known};
ghost use Rattle.blz_image.specs.RelocationTables.{entry_size};
ghost use Rattle.blz_image.specs.TargetTables.{TableFits, beneath, beneath_section, beneath_sections, put_absent, section_mark, section_marks};

use crate::format::Format;
use crate::record::Records;
use crate::relocations::effect::effect_of;
use crate::relocations::entries::{Entry, EntryKind, RelocationEntries, entry_kind, entry_size};
use crate::relocations::read_places::{ReadPlaces, note_read};
use crate::relocations::table::{RelocationTable, table_of};
use crate::section::{Section, SectionTable};
use crate::span::place_of;
use crate::symbols::Symbols;
use blz_relocations::RelocationMap;
use std::alloc::{AllocError, Global};
use std::collections::BTreeMap;

/// Whether it is noted what was read, for tables that are read later.
#[derive(Clone, Copy)]
enum Notes {
    Taken,
    Needless,
}

/// The relocations of a section as far as they were gathered, and what was read of the image for them.
#[derive(Drop)]
struct Gathered {
    map: RelocationMap,
    read: ReadPlaces,
}

/// Puts one entry, where its offset has none.
fn put_absent(
    map: &mut RelocationMap,
    symbols: &Symbols<'_>,
    entry: &Entry,
) -> Result<(), AllocError>
    ensures { OnOk result (map.new ≡ put_absent symbols.now map.old (entry_view entry.now)) }
{
    let (number, implicit) = effect_of(symbols, entry);
    map.insert_absent(entry.offset, number, implicit)
}

/// Puts the entries of a table beneath a map, from the last to the first; those that were read before are passed over.
fn put_unread(
    map: &mut RelocationMap,
    read: &BTreeMap<usize, usize>,
    image: &[u8],
    table: &RelocationTable,
) -> Result<(), AllocError>
    requires fits { TableFits image.now table.now }
    requires read { AllRead (entry_size table.now.kind table.now.entries.format.class)
        (is_known table.now.entries.format image.now map.old) read.now }
    ensures { OnOk result (map.new ≡ beneath (symbols_in image.now table.now.symbols)
        (entries_in table.now.kind image.now table.now.entries) map.old) }
{
    let rows = table.entries;
    let size = entry_size(table.kind, rows.format.class);
    let symbols = Records::open(image, table.symbols);
    let entries = RelocationEntries::open(image, rows, table.kind);
    let mut end = rows.count;
    while end > 0 {
        let last = end - 1;
        let at = place_of(rows.at, size, rows.count, last, image.len());
        match read.get(&at) {
            Some(before) => end = last.saturating_sub(*before),
            None => {
                put_absent(map, &symbols, &entries.at(last))?;
                end = last;
            }
        }
    }
    Ok(())
}

/// Puts a table beneath a map, and notes what was read where that is needed.
fn put_table(
    map: &mut RelocationMap,
    read: &mut BTreeMap<usize, usize>,
    image: &[u8],
    table: &RelocationTable,
    notes: Notes,
) -> Result<(), AllocError>
    requires fits { TableFits image.now table.now }
    requires read { AllRead (entry_size table.now.kind table.now.entries.format.class)
        (is_known table.now.entries.format image.now map.old) read.old }
    ensures value { OnOk result (map.new ≡ beneath (symbols_in image.now table.now.symbols)
        (entries_in table.now.kind image.now table.now.entries) map.old) }
    ensures read { OnOk result (AllRead (entry_size table.now.kind table.now.entries.format.class)
        (is_known table.now.entries.format image.now map.new) read.new) }
{
    put_unread(map, read, image, table)?;
    if let Notes::Taken = notes {
        let size = entry_size(table.kind, table.entries.format.class);
        note_read(read, table.entries, size, image.len())?;
    }
    Ok(())
}

/// Puts a section beneath what was gathered, where it holds relocations of the target.
#[tactic(auto, unfolding(crate::specs::TargetTables::beneath_section, crate::specs::TargetTables::section_mark))]
fn put_section(
    gathered: &mut Gathered,
    image: &[u8],
    format: Format,
    sections: &SectionTable<'_>,
    section: &Section,
    target: usize,
    notes: Notes,
) -> Result<(), AllocError>
    requires mark { section_mark format image.now sections.now section.now ≡ Good tt }
    requires read { AreRead format image.now gathered.old.map gathered.old.read }
    ensures value { OnOk result (gathered.new.map
        ≡ beneath_section format image.now sections.now target gathered.old.map section.now) }
    ensures read { OnOk result (AreRead format image.now gathered.new.map gathered.new.read) }
{
    let Some(kind) = entry_kind(section) else {
        return Ok(());
    };
    if section.info as usize != target {
        return Ok(());
    }
    let table = match table_of(image, format, sections, section, kind) {
        Ok(table) => table,
        Err(_) => unreachable!(),
    };
    let map = &mut gathered.map;
    match kind {
        EntryKind::Rela => put_table(map, &mut gathered.read.rela, image, &table, notes),
        EntryKind::Rel => put_table(map, &mut gathered.read.rel, image, &table, notes),
    }
}

/// The first section that holds relocations of the target, 0 where there is none. What comes before it needs no notes.
fn first_of(sections: &SectionTable<'_>, target: usize) -> usize {
    for i in 0..sections.len() {
        let section = sections.at(i);
        if entry_kind(&section).is_some() && section.info as usize == target {
            return i;
        }
    }
    0
}

/// The relocations of the section `target`, its tables read from the last to the first.
pub fn relocations_of(
    alloc: Global,
    image: &[u8],
    format: Format,
    sections: &SectionTable<'_>,
    target: usize,
) -> Result<RelocationMap, AllocError>
    requires { section_marks format image.now sections.now sections.now ≡ Good tt }
    ensures { IfOk result
        (λ m. m ≡ beneath_sections format image.now sections.now target sections.now) }
{
    let first = first_of(sections, target);
    let map = RelocationMap::new(alloc);
    let read = ReadPlaces::none(alloc);
    let mut gathered = Gathered { map, read };
    let mut i = sections.len();
    while i > 0 {
        i -= 1;
        let section = sections.at(i);
        let notes = if i == first {
            Notes::Needless
        } else {
            Notes::Taken
        };
        put_section(
            &mut gathered,
            image,
            format,
            sections,
            &section,
            target,
            notes,
        )?;
    }
    Ok(gathered.map)
}
