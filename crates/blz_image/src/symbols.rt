//! The symbols of a table, where they lie in the image.
ghost use Rattle.std.specs.Prelude.{◌≡◌, IfOk};
ghost use Rattle.blz_model.specs.Part.{Exactly};
ghost use Rattle.blz_records.specs.SymbolTypes.{matches};
ghost use Rattle.blz_image.specs.Formats.{symbol_size};
ghost use Rattle.blz_image.specs.Places.{RowsFit, symbols_in};
ghost use Rattle.blz_image.specs.Sections.{records_of, if_there};
ghost use Rattle.blz_image.specs.SymbolTables.{is_typed, symbol_at, type_of};

use crate::format::{Class, Format};
use crate::number::word_in;
use crate::record::{Record, Records};
use crate::section::{Section, records};
use crate::span::Rows;
use blz_constants::elf::{STT_FUNC, STT_GNU_IFUNC, STT_NOTYPE, STT_OBJECT};
use blz_error::Result;
use blz_records::{SymType, u16_in, u32_in};

/// The two tables of symbols (ELF gABI, Symbol Table).
#[derive(Clone, Copy)]
pub enum TableKind {
    /// `.symtab`, where a symbol without a size covers each address from its value on.
    Symtab,
    /// `.dynsym`, where such a symbol covers its value alone.
    Dynsym,
}

/// What is read of a symbol.
#[derive(Clone, Copy)]
pub struct Symbol {
    /// st_name.
    pub name_offset: u32,
    /// st_value.
    pub value: u64,
    /// st_size.
    pub size: u64,
    /// The type, of st_info.
    pub kind: u8,
    /// st_shndx.
    pub section: u16,
}

/// The symbols of a section, where they lie in the image.
pub type Symbols<'b> = Records<'b, Symbol>;

impl Record for Symbol {
    ghost use Rattle.blz_image.specs.Formats.{symbol_size};
    ghost use Rattle.blz_image.specs.SymbolTables as model;

    ghost SIZE = { symbol_size };

    ghost record_at = { model.symbol_at };

    fn size(class: Class) -> usize {
        class.symbol_size()
    }

    fn read(image: &[u8], at: usize, format: Format) -> Symbol {
        let word = format.class.word();
        let info = match format.class {
            Class::Elf32 => 12,
            Class::Elf64 => 4,
        };
        Symbol {
            name_offset: u32_in(image, at, format.order),
            value: word_in(image, at + word, format),
            size: word_in(image, at + 2 * word, format),
            kind: image[at + info] % 16,
            section: u16_in(image, at + info + 2, format.order),
        }
    }
}

impl Symbol {
    /// Whether its type is one that is answered.
    pub fn is_typed(&self) -> bool
        ensures { result ≡ is_typed self.now }
    {
        self.matches(SymType::Undefined)
    }

    /// Whether it is of a type that is asked for.
    pub fn matches(&self, sym_type: SymType) -> bool
        ensures { result ≡ matches self.now.kind sym_type }
    {
        match sym_type {
            SymType::Undefined => matches!(
                self.kind,
                STT_NOTYPE | STT_OBJECT | STT_FUNC | STT_GNU_IFUNC
            ),
            SymType::Function => matches!(self.kind, STT_NOTYPE | STT_FUNC | STT_GNU_IFUNC),
            SymType::Variable => matches!(self.kind, STT_NOTYPE | STT_OBJECT),
        }
    }

    /// What it names.
    pub fn sym_type(&self) -> SymType
        ensures { result ≡ type_of self.now }
    {
        match self.kind {
            STT_OBJECT => SymType::Variable,
            STT_FUNC | STT_GNU_IFUNC => SymType::Function,
            _ => SymType::Undefined,
        }
    }
}

/// The place of the symbols of a section.
#[tactic(auto, unfolding(crate::specs::Sections::records_of))]
pub fn symbols_of(image: &[u8], section: Option<Section>, format: Format) -> Result<Rows>
    ensures value { Exactly (symbols_in image.now) result
        (if_there (records_of (symbol_at format) (symbol_size format.class) image.now) section) }
    ensures fits { IfOk result (RowsFit symbol_size image.now) }
{
    match section {
        None => Ok(Rows {
            format,
            at: 0,
            count: 0,
        }),
        Some(section) => records(image, &section, format.class.symbol_size(), format),
    }
}
