//! The entries of a section of relocations, where they lie in the image.
ghost use Rattle.std.specs.Prelude.{◌≡◌, ◌+◌, ◌≤◌, ◌<◌, length};
ghost use Rattle.std.specs.List.{HoldsAt};
ghost use Rattle.blz_image.specs.RelocationTables as model;
ghost use Rattle.blz_image.specs.RelocationTables.{entry_kind, entry_size, symbol_index, sign_extended, addend_at};
ghost use Rattle.blz_image.specs.declared.format.Class.TheVariants.{Elf32};
ghost use Rattle.blz_image.specs.EntryPlaces.{entries_in};
ghost use Rattle.blz_image.specs.EntryViews.{entry_view};
ghost use Rattle.blz_image.specs.Places.{RowsFit};

use crate::format::{Class, Format};
use crate::number::word_in;
use crate::section::Section;
use crate::span::{Rows, place_of};
use blz_constants::elf::{SHT_REL, SHT_RELA};
use blz_records::{u32_in, u64_in};
use std::marker::Model;

/// How the addend of an entry is given.
#[derive(Clone, Copy)]
pub enum EntryKind {
    /// In the entry (SHT_RELA).
    Rela,
    /// In the field that is changed (SHT_REL).
    Rel,
}

/// What is read of an entry.
#[derive(Clone, Copy)]
pub struct Entry {
    /// r_offset.
    pub offset: u64,
    /// The index of the symbol, of r_info.
    pub symbol: u64,
    /// r_addend in 64 bits, where the entry has one.
    pub addend: Option<u64>,
}

/// The kind of the entries of a section, where it has some.
pub fn entry_kind(section: &Section) -> Option<EntryKind>
    ensures { result ≡ entry_kind section.now }
{
    match section.kind {
        SHT_RELA => Some(EntryKind::Rela),
        SHT_REL => Some(EntryKind::Rel),
        _ => None,
    }
}

/// The bytes of an entry.
pub fn entry_size(kind: EntryKind, class: Class) -> usize
    ensures value { result ≡ entry_size kind class }
    ensures least { 0 < result }
    ensures most { result ≤ 24 }
{
    match kind {
        EntryKind::Rela => 3 * class.word(),
        EntryKind::Rel => 2 * class.word(),
    }
}

fn symbol_index(class: Class, info: u64) -> u64
    ensures { result ≡ symbol_index class info }
{
    match class {
        Class::Elf32 => info >> 8,
        Class::Elf64 => info >> 32,
    }
}

/// A signed number of 32 bits in 64.
fn sign_extended(number: u32) -> u64
    ensures { result ≡ sign_extended Elf32 number }
{
    let wide = u64::from(number);
    if number < 1 << 31 {
        wide
    } else {
        wide + (u64::MAX - u64::from(u32::MAX))
    }
}

fn addend_at(image: &[u8], at: usize, format: Format, kind: EntryKind) -> Option<u64>
    requires { at + entry_size kind format.class ≤ length image.now }
    ensures { result ≡ addend_at kind format image.now at }
{
    match (kind, format.class) {
        (EntryKind::Rel, _) => None,
        (EntryKind::Rela, Class::Elf32) => {
            Some(sign_extended(u32_in(image, at + 8, format.order)))
        },
        (EntryKind::Rela, Class::Elf64) => Some(u64_in(image, at + 16, format.order)),
    }
}

/// The entry at a place.
fn entry_at(image: &[u8], at: usize, format: Format, kind: EntryKind) -> Entry
    requires { at + entry_size kind format.class ≤ length image.now }
    ensures { entry_view result ≡ model.entry_at kind format image.now at }
{
    let word = format.class.word();
    Entry {
        offset: word_in(image, at, format),
        symbol: symbol_index(format.class, word_in(image, at + word, format)),
        addend: addend_at(image, at, format, kind),
    }
}

/// The entries of a section.
#[derive(Drop)]
pub struct RelocationEntries<'b> {
    image: &'b [u8],
    rows: Rows,
    kind: EntryKind,
}

impl<'b> Model for RelocationEntries<'b> {
    ghost use Rattle.std.specs.Prelude.{List};
    ghost use Rattle.blz_image.specs.declared.format.Class.TheVariants.{Elf32};
    ghost use Rattle.blz_image.specs.EntryPlaces.{entries_in};
    ghost use Rattle.blz_image.specs.Places.{RowsFit};
    ghost use Rattle.blz_image.specs.RelocationTables as model;
    ghost use Rattle.blz_image.specs.RelocationTables.{entry_size};

    ghost Value = { List model.Entry };

    ghost view = { λ t. entries_in t.kind t.image.now t.rows };

    ghost invariant = { λ t. RowsFit (entry_size t.kind) t.image.now t.rows };
}

impl<'b> RelocationEntries<'b> {
    /// The entries at a place.
    pub fn open(image: &'b [u8], rows: Rows, kind: EntryKind) -> RelocationEntries<'b>
        requires { RowsFit (entry_size kind) image.now rows }
        ensures { result ≡ entries_in kind image.now rows }
    {
        RelocationEntries { image, rows, kind }
    }

    /// How many they are.
    pub fn len(&self) -> usize
        ensures { result ≡ length self.now }
    {
        self.rows.count
    }

    /// The entry at an index.
    pub fn at(&self, index: usize) -> Entry
        requires { index < length self.now }
        ensures { HoldsAt (λ e. e ≡ entry_view result) self.now index }
    {
        let rows = self.rows;
        let size = entry_size(self.kind, rows.format.class);
        let at = place_of(rows.at, size, rows.count, index, self.image.len());
        entry_at(self.image, at, rows.format, self.kind)
    }
}
