//! The tables of directories and files.
ghost use Rattle.std.specs.Prelude.{◌≡◌, ◌≤◌, ◌<◌, length, IfSome};
ghost use Rattle.blz_error.specs.declared.kind.ErrorKind.TheVariants.{InvalidDwarf};
ghost use Rattle.blz_model.specs.Part.{Gives, or_mark};
ghost use Rattle.blz_line.specs.PathTables.{text_place, file_numbers, file_at, entry_behind, listed_at, listed_paths};

use crate::broken::broken;
use crate::table::Table;
use blz_bytes::{Room, uleb_at, zero_ended_at};
use blz_entry::{AttrValue, StrPart, StrPlace};
use blz_error::Result;
use std::alloc::Global;

/// What an entry that is kept takes of a file's room.
pub const ENTRY_WORDS: u64 = 6;

/// A directory or a file as its table spells it (DWARF 5 section 6.2.4.1).
#[derive(Clone, Copy)]
pub struct FileEntry {
    /// Its path.
    pub path: AttrValue,
    /// The number of the directory that the path stands in.
    pub directory: u64,
}

/// Both tables of a header, in the order of their numbers.
#[derive(Drop)]
pub struct Paths {
    pub directories: Table<FileEntry>,
    pub files: Table<FileEntry>,
}

/// Which table of versions 2 to 4 is read.
#[derive(Clone, Copy)]
pub enum Kind {
    /// Its entries are paths.
    Directories,
    /// Its entries are paths, each followed by three numbers.
    Files,
}

fn text_place(start: usize, text: &[u8]) -> AttrValue
    ensures { result ≡ text_place start text.now }
{
    AttrValue::Text(StrPlace {
        part: StrPart::Line,
        start,
        len: text.len(),
    })
}

#[tactic(auto, unfolding(crate::specs::PathTables::file_numbers))]
fn file_numbers(path: AttrValue, bytes: &[u8], at: usize) -> Option<(FileEntry, usize)>
    ensures value { result ≡ file_numbers path bytes.now at }
    ensures within { IfSome result (λ r. (at < r.1) × (r.1 ≤ length bytes.now)) }
{
    let (directory, next) = uleb_at(bytes, at)?;
    let (_, next) = uleb_at(bytes, next)?;
    let (_, next) = uleb_at(bytes, next)?;
    Some((FileEntry { path, directory }, next))
}

/// A file of versions 2 to 4: a text, and the numbers of its directory, time and size.
#[tactic(auto, unfolding(crate::specs::PathTables::file_at))]
pub fn file_at(bytes: &[u8], at: usize) -> Option<(FileEntry, usize)>
    ensures { result ≡ file_at bytes.now at }
{
    let (path, next) = zero_ended_at(bytes, at)?;
    file_numbers(text_place(at, path), bytes, next)
}

#[tactic(auto, unfolding(crate::specs::PathTables::entry_behind))]
fn entry_behind(kind: Kind, path: AttrValue, bytes: &[u8], at: usize) -> Option<(FileEntry, usize)>
    ensures { result ≡ entry_behind kind path bytes.now at }
{
    match kind {
        Kind::Directories => Some((FileEntry { path, directory: 0 }, at)),
        Kind::Files => file_numbers(path, bytes, at),
    }
}

/// The entries up to an empty path, and the offset behind it.
fn listed_at(
    alloc: Global,
    room: &mut Room,
    kind: Kind,
    bytes: &[u8],
    at: usize,
) -> Result<(Table<FileEntry>, usize)>
    ensures { Gives (λ r. r) result (or_mark (listed_at kind bytes.now at) InvalidDwarf) }
{
    let mut table = Table::new(alloc);
    let mut offset = at;
    for _ in 0..bytes.len() {
        let Some((path, behind)) = zero_ended_at(bytes, offset) else {
            return Err(broken());
        };
        if path.is_empty() {
            return Ok((table, behind));
        }
        let Some((entry, next)) = entry_behind(kind, text_place(offset, path), bytes, behind) else {
            return Err(broken());
        };
        room.take(ENTRY_WORDS)?;
        table.push(entry)?;
        offset = next;
    }
    Err(broken())
}

/// The tables of versions 2 to 4.
#[tactic(auto, unfolding(crate::specs::PathTables::listed_paths))]
pub fn listed_paths(alloc: Global, room: &mut Room, bytes: &[u8], at: usize) -> Result<Paths>
    ensures { Gives (λ r. r) result (or_mark (listed_paths bytes.now at) InvalidDwarf) }
{
    let (directories, next) = listed_at(alloc, room, Kind::Directories, bytes, at)?;
    let (files, _) = listed_at(alloc, room, Kind::Files, bytes, next)?;
    Ok(Paths { directories, files })
}
