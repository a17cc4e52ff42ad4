//! The tables of directories and files in version 5.
ghost use Rattle.std.specs.Prelude.{◌≡◌, ◌<◌, []};
ghost use Rattle.blz_error.specs.declared.kind.ErrorKind.TheVariants.{InvalidDwarf};
ghost use Rattle.blz_model.specs.Part.{Gives, or_mark};
ghost use Rattle.blz_info.specs.Contents.{section_view};
ghost use Rattle.blz_line.specs.Formats.{format_at, formats_in, formats_at, with_content, entry_at, entries_in, path_count, formatted_at, formatted_paths};

use crate::broken::broken;
use crate::paths::{ENTRY_WORDS, FileEntry, Paths};
use crate::table::Table;
use blz_bytes::{Room, u8_at, uleb_at};
use blz_constants::dwarf;
use blz_entry::{AttrValue, Encoding, Section, StrPart, form_value};
use blz_error::Result;
use std::alloc::Global;

/// What a value of each entry means, and how it is read (DWARF 5 section 6.2.4.1).
#[derive(Clone, Copy)]
pub struct EntryFormat {
    pub content: u64,
    pub form: u64,
}

#[tactic(auto, unfolding(crate::specs::Formats::format_at))]
fn format_at(bytes: &[u8], at: usize) -> Option<(EntryFormat, usize)>
    ensures { result ≡ format_at bytes.now at }
{
    let (content, next) = uleb_at(bytes, at)?;
    let (form, next) = uleb_at(bytes, next)?;
    Some((EntryFormat { content, form }, next))
}

/// So many formats, and the offset behind them.
fn formats_from(
    alloc: Global,
    count: u8,
    bytes: &[u8],
    at: usize,
) -> Result<(Vec<EntryFormat>, usize)>
    ensures { Gives (λ r. (r.0.items, r.1)) result
        (or_mark (formats_in count [] bytes.now at) InvalidDwarf) }
{
    let mut formats = Vec::new(alloc);
    let mut offset = at;
    for _ in 0..count {
        let Some((format, next)) = format_at(bytes, offset) else {
            return Err(broken());
        };
        formats.push(format)?;
        offset = next;
    }
    Ok((formats, offset))
}

/// The formats of a table, and the offset behind them.
#[tactic(auto, unfolding(crate::specs::Formats::formats_at))]
fn formats_at(alloc: Global, bytes: &[u8], at: usize) -> Result<(Vec<EntryFormat>, usize)>
    ensures { Gives (λ r. (r.0.items, r.1)) result
        (or_mark (formats_at bytes.now at) InvalidDwarf) }
{
    let Some((count, next)) = u8_at(bytes, at) else {
        return Err(broken());
    };
    formats_from(alloc, count, bytes, next)
}

fn with_content(content: u64, value: AttrValue, entry: FileEntry) -> FileEntry
    ensures { result ≡ with_content content value entry }
{
    match content {
        dwarf::DW_LNCT_path => FileEntry {
            path: value,
            ..entry
        },
        dwarf::DW_LNCT_directory_index => FileEntry {
            directory: value.udata().unwrap_or(entry.directory),
            ..entry
        },
        _ => entry,
    }
}

/// An entry, and the offset behind it.
#[tactic(auto, unfolding(crate::specs::Formats::entry_at))]
fn entry_at(
    encoding: Encoding,
    section: &Section<'_, '_>,
    formats: &[EntryFormat],
    at: usize,
) -> Option<(FileEntry, usize)>
    ensures { result ≡ entry_at encoding (section_view section.now) formats.now at }
{
    let mut entry = FileEntry {
        path: AttrValue::Other,
        directory: 0,
    };
    let mut offset = at;
    for format in formats {
        let (value, next) = form_value(
            section,
            StrPart::Line,
            encoding.version,
            encoding.wide,
            encoding.address_size,
            format.form,
            offset,
        )?;
        entry = with_content(format.content, value, entry);
        offset = next;
    }
    Some((entry, offset))
}

/// What an entry takes of a file's room: it is kept, and each of its values is read.
fn entry_words(formats: &[EntryFormat]) -> u64 {
    ENTRY_WORDS.saturating_add(formats.len() as u64)
}

/// So many entries, and the offset behind them.
fn entries_at(
    alloc: Global,
    room: &mut Room,
    encoding: Encoding,
    section: &Section<'_, '_>,
    formats: &[EntryFormat],
    count: u64,
    at: usize,
) -> Result<(Table<FileEntry>, usize)>
    ensures { Gives (λ r. r) result (or_mark
        (entries_in encoding (section_view section.now) formats.now count [] at) InvalidDwarf) }
{
    let mut table = Table::new(alloc);
    let mut offset = at;
    for _ in 0..count {
        room.take(entry_words(formats))?;
        let Some((entry, next)) = entry_at(encoding, section, formats, offset) else {
            return Err(broken());
        };
        table.push(entry)?;
        offset = next;
    }
    Ok((table, offset))
}

/// So many entries where there is one at least. Where the first takes no bytes, no other does, and all are equal: their
/// number is then one that no byte backs, so they are not read one by one.
fn some_entries_at(
    alloc: Global,
    room: &mut Room,
    encoding: Encoding,
    section: &Section<'_, '_>,
    formats: &[EntryFormat],
    count: u64,
    at: usize,
) -> Result<(Table<FileEntry>, usize)>
    requires { 0 < count }
    ensures { Gives (λ r. r) result (or_mark
        (entries_in encoding (section_view section.now) formats.now count [] at) InvalidDwarf) }
{
    let Some((first, next)) = entry_at(encoding, section, formats, at) else {
        return Err(broken());
    };
    if next == at {
        return Ok((Table::of_equal(alloc, count, first), at));
    }
    entries_at(alloc, room, encoding, section, formats, count, at)
}

fn path_count(formats: &[EntryFormat]) -> usize
    ensures { result ≡ path_count formats.now }
{
    formats
        .iter()
        .filter(|format| format.content == dwarf::DW_LNCT_path)
        .count()
}

/// A table, and the offset behind it.
#[tactic(auto, unfolding(crate::specs::Formats::formatted_at, crate::specs::Formats::entries_in))]
fn formatted_at(
    alloc: Global,
    room: &mut Room,
    encoding: Encoding,
    section: &Section<'_, '_>,
    at: usize,
) -> Result<(Table<FileEntry>, usize)>
    ensures { Gives (λ r. r) result
        (or_mark (formatted_at encoding (section_view section.now) at) InvalidDwarf) }
{
    let (formats, next) = formats_at(alloc, section.bytes, at)?;
    let Some((count, start)) = uleb_at(section.bytes, next) else {
        return Err(broken());
    };
    if count == 0 {
        return Ok((Table::new(alloc), start));
    }
    if path_count(formats.as_slice()) != 1 {
        return Err(broken());
    }
    some_entries_at(
        alloc,
        room,
        encoding,
        section,
        formats.as_slice(),
        count,
        start,
    )
}

/// The tables of version 5.
#[tactic(auto, unfolding(crate::specs::Formats::formatted_paths))]
pub fn formatted_paths(
    alloc: Global,
    room: &mut Room,
    encoding: Encoding,
    section: &Section<'_, '_>,
    at: usize,
) -> Result<Paths>
    ensures { Gives (λ r. r) result
        (or_mark (formatted_paths encoding (section_view section.now) at) InvalidDwarf) }
{
    let (directories, next) = formatted_at(alloc, room, encoding, section, at)?;
    let (files, _) = formatted_at(alloc, room, encoding, section, next)?;
    Ok(Paths { directories, files })
}
