//! How the records of an image are laid out.
ghost use Rattle.std.specs.Prelude.{◌≡◌, ◌≤◌, ◌<◌};
ghost use Rattle.std.specs.Option.{option_map};
ghost use Rattle.blz_image.specs.Formats.{class_of, order_of, word, header_size, section_size, segment_size, symbol_size, compression_size};

use blz_bytes::ByteOrder;
use blz_constants::elf::{ELFCLASS32, ELFCLASS64, ELFDATA2LSB, ELFDATA2MSB};

/// How wide an address is (ELF gABI, EI_CLASS).
#[derive(Clone, Copy, Debug, PartialEq, Eq)]
pub enum Class {
    /// Four bytes.
    Elf32,
    /// Eight bytes.
    Elf64,
}

/// A class and a byte order.
#[derive(Clone, Copy)]
pub struct Format {
    /// How wide an address is.
    pub class: Class,
    /// Which byte of a number comes first.
    pub order: ByteOrder,
}

/// The class of its byte, where that names one.
pub fn class_of(byte: u8) -> Option<Class>
    ensures { result ≡ class_of byte }
{
    match byte {
        ELFCLASS32 => Some(Class::Elf32),
        ELFCLASS64 => Some(Class::Elf64),
        _ => None,
    }
}

/// The order of its byte, where that names one.
pub fn order_of(byte: u8) -> Option<ByteOrder>
    ensures { result ≡ order_of byte }
{
    match byte {
        ELFDATA2LSB => Some(ByteOrder::Little),
        ELFDATA2MSB => Some(ByteOrder::Big),
        _ => None,
    }
}

impl Class {
    /// The bytes of an address, an offset or a size.
    pub fn word(self) -> usize
        ensures value { result ≡ word self }
        ensures least { 4 ≤ result }
        ensures most { result ≤ 8 }
    {
        match self {
            Class::Elf32 => 4,
            Class::Elf64 => 8,
        }
    }

    /// The bytes of a header.
    pub fn header_size(self) -> usize
        ensures { result ≡ header_size self }
    {
        40 + 3 * self.word()
    }

    /// The bytes of a section header.
    pub fn section_size(self) -> usize
        ensures value { result ≡ section_size self }
        ensures most { result ≤ 64 }
    {
        16 + 6 * self.word()
    }

    /// The bytes of a symbol.
    pub fn symbol_size(self) -> usize
        ensures value { result ≡ symbol_size self }
        ensures most { result ≤ 24 }
    {
        8 + 2 * self.word()
    }

    /// The bytes of a compression header.
    pub fn compression_size(self) -> usize
        ensures { result ≡ compression_size self }
    {
        3 * self.word()
    }

    /// The bytes of a program header.
    pub fn segment_size(self) -> usize
        ensures value { result ≡ segment_size self }
        ensures least { 0 < result }
        ensures most { result ≤ 56 }
    {
        8 + 6 * self.word()
    }
}
