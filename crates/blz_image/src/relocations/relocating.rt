//! Reads the relocations of an image.
ghost use Rattle.std.specs.Prelude.{◌≡◌, OnOk, IfOk};
ghost use Rattle.std.specs.FinMap as finite;
ghost use Rattle.std.specs.List.{fold};
ghost use Rattle.blz_model.specs.Part.{Gives, Exactly, Good};
ghost use Rattle.blz_image.specs.Formats.{section_size};
ghost use Rattle.blz_image.specs.Places.{RowsFit, sections_in};
ghost use Rattle.blz_image.specs.RelocationTables.{mark_in, maps_in, put_entry, with_entries, with_section, with_sections, relocations_of};
ghost use Rattle.blz_image.specs.TargetTables.{section_mark, section_marks};
ghost use Rattle.blz_image.specs.EntryViews.{entry_view};
ghost use Rattle.blz_image.specs.Views.{header_view};

use crate::format::Format;
use crate::header::Header;
use crate::record::Records;
use crate::relocations::effect::effect_of;
use crate::relocations::entries::{Entry, EntryKind, RelocationEntries, entry_kind};
use crate::relocations::table::table_of;
use crate::relocations::target;
use crate::section::{Section, SectionTable};
use crate::span::Rows;
use crate::symbols::Symbols;
use blz_constants::elf::ET_REL;
use blz_error::Result;
use blz_relocations::SectionRelocations;
use std::alloc::{AllocError, Global};

/// Puts one entry of the section `target`.
fn put_entry(
    alloc: Global,
    map: &mut SectionRelocations,
    symbols: &Symbols<'_>,
    target: u32,
    entry: &Entry,
) -> std::result::Result<(), AllocError>
    ensures { OnOk result (map.new ≡ put_entry symbols.now target map.old (entry_view entry.now)) }
{
    let (number, implicit) = effect_of(symbols, entry);
    map.insert(alloc, target as usize, entry.offset, number, implicit)
}

/// Puts the entries of the section `target`, in their order.
fn put_entries(
    alloc: Global,
    map: &mut SectionRelocations,
    symbols: &Symbols<'_>,
    target: u32,
    entries: &RelocationEntries<'_>,
) -> std::result::Result<(), AllocError>
    ensures { OnOk result (map.new ≡ fold (put_entry symbols.now target) map.old entries.now) }
{
    for i in 0..entries.len() {
        put_entry(alloc, map, symbols, target, &entries.at(i))?;
    }
    Ok(())
}

/// Puts the entries that a section holds.
fn relocate_by(
    alloc: Global,
    map: &mut SectionRelocations,
    image: &[u8],
    format: Format,
    sections: &SectionTable<'_>,
    section: &Section,
    kind: EntryKind,
) -> Result<()>
    ensures { Gives (λ _. map.new) result
        (with_entries format image.now sections.now section.now kind map.old) }
{
    let table = table_of(image, format, sections, section, kind)?;
    let symbols = Records::open(image, table.symbols);
    let entries = RelocationEntries::open(image, table.entries, table.kind);
    put_entries(alloc, map, &symbols, section.info, &entries)?;
    Ok(())
}

/// Puts the relocations of a section, where it holds some.
#[tactic(auto, unfolding(crate::specs::RelocationTables::with_section))]
fn relocate_section(
    alloc: Global,
    map: &mut SectionRelocations,
    image: &[u8],
    format: Format,
    sections: &SectionTable<'_>,
    section: &Section,
) -> Result<()>
    ensures { Gives (λ _. map.new) result
        (with_section format image.now sections.now map.old section.now) }
{
    match entry_kind(section) {
        Some(kind) => relocate_by(alloc, map, image, format, sections, section, kind),
        None => Ok(()),
    }
}

/// Puts the relocations of all sections, in their order.
fn relocate_all(
    alloc: Global,
    map: &mut SectionRelocations,
    image: &[u8],
    format: Format,
    sections: &SectionTable<'_>,
) -> Result<()>
    ensures { Gives (λ _. map.new) result
        (with_sections format image.now sections.now sections.now map.old) }
{
    for i in 0..sections.len() {
        relocate_section(alloc, map, image, format, sections, &sections.at(i))?;
    }
    Ok(())
}

/// Looks for the mark of a section, where it holds relocations; takes no memory.
#[tactic(auto, unfolding(crate::specs::TargetTables::section_mark))]
fn check_section(
    image: &[u8],
    format: Format,
    sections: &SectionTable<'_>,
    section: &Section,
) -> Result<()>
    ensures { Exactly (λ _. tt) result (section_mark format image.now sections.now section.now) }
{
    if let Some(kind) = entry_kind(section) {
        table_of(image, format, sections, section, kind)?;
    }
    Ok(())
}

/// Looks for the first mark of the relocations, which headers alone decide; takes no memory.
fn check_sections(image: &[u8], format: Format, sections: &SectionTable<'_>) -> Result<()>
    ensures { Exactly (λ _. tt) result (section_marks format image.now sections.now sections.now) }
{
    for i in 0..sections.len() {
        check_section(image, format, sections, &sections.at(i))?;
    }
    Ok(())
}

/// The relocations of the targets that are there, where all can be read.
fn maps_of(
    alloc: Global,
    image: &[u8],
    format: Format,
    sections: &SectionTable<'_>,
    targets: &[Option<usize>],
) -> std::result::Result<SectionRelocations, AllocError>
    requires { section_marks format image.now sections.now sections.now ≡ Good tt }
    ensures { IfOk result (λ r. maps_in targets.now
        (with_sections format image.now sections.now sections.now finite.empty) ≡ Good r) }
{
    let mut maps = SectionRelocations::empty(alloc);
    for i in 0..targets.len() {
        match targets[i] {
            None => {}
            Some(target) => {
                maps.put(
                    target,
                    target::relocations_of(alloc, image, format, sections, target)?,
                )?;
            }
        }
    }
    Ok(maps)
}

/// The sections that can hold relocations: all where the file is relocatable, else none.
#[tactic(auto, unfolding(crate::specs::RelocationTables::relocations_of, crate::specs::RelocationTables::with_sections))]
fn relocating(image: &[u8], header: &Header, rows: Rows) -> Rows
    requires { RowsFit section_size image.now rows }
    ensures fits { RowsFit section_size image.now result }
    ensures value { relocations_of image.now (header_view header.now) (sections_in image.now rows)
        ≡ with_sections header.now.format image.now (sections_in image.now result)
        (sections_in image.now result) finite.empty }
{
    if header.file_type == ET_REL {
        rows
    } else {
        Rows { count: 0, ..rows }
    }
}

/// Looks for the first mark of the relocations of an image whose header and section table were read; takes no memory.
pub fn check_relocations(image: &[u8], header: Header, rows: Rows) -> Result<()>
    requires fits { RowsFit section_size image.now rows }
    ensures { Exactly (λ _. tt) result
        (mark_in (relocations_of image.now (header_view header) (sections_in image.now rows))) }
{
    let sections = Records::open(image, relocating(image, &header, rows));
    check_sections(image, header.format, &sections)
}

/// Of the relocations of such an image those of the targets that are there. Each target reads a place of the image once,
/// whatever its tables share.
pub fn relocations_for(
    alloc: Global,
    image: &[u8],
    header: Header,
    rows: Rows,
    targets: &[Option<usize>],
) -> Result<SectionRelocations>
    requires fits { RowsFit section_size image.now rows }
    ensures { Gives (λ m. m) result (maps_in targets.now
        (relocations_of image.now (header_view header) (sections_in image.now rows))) }
{
    let sections = Records::open(image, relocating(image, &header, rows));
    check_sections(image, header.format, &sections)?;
    Ok(maps_of(alloc, image, header.format, &sections, targets)?)
}

/// The relocations of an image whose header and section table were read.
#[tactic(auto, unfolding(crate::specs::RelocationTables::relocations_of))]
pub fn relocations(
    alloc: Global,
    image: &[u8],
    header: Header,
    rows: Rows,
) -> Result<SectionRelocations>
    requires fits { RowsFit section_size image.now rows }
    ensures { Gives (λ m. m) result
        (relocations_of image.now (header_view header) (sections_in image.now rows)) }
{
    let mut map = SectionRelocations::empty(alloc);
    if header.file_type == ET_REL {
        let sections = Records::open(image, rows);
        relocate_all(alloc, &mut map, image, header.format, &sections)?;
    }
    Ok(map)
}
