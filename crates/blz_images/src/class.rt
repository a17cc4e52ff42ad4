//! The class of an image.

/// The width of addresses and offsets (ELF gABI, File Class).
#[derive(Clone, Copy, Debug, PartialEq, Eq)]
pub enum Class {
    /// 32 bits.
    Elf32,
    /// 64 bits.
    Elf64,
}

impl Class {
    /// The class byte of the identification.
    pub fn number(self) -> u8 {
        match self {
            Class::Elf32 => 1,
            Class::Elf64 => 2,
        }
    }

    /// The size of the file header.
    pub fn header_size(self) -> u16 {
        match self {
            Class::Elf32 => 52,
            Class::Elf64 => 64,
        }
    }

    /// The size of a section header.
    pub fn section_size(self) -> u16 {
        match self {
            Class::Elf32 => 40,
            Class::Elf64 => 64,
        }
    }

    /// The size of a program header.
    pub fn segment_size(self) -> u16 {
        match self {
            Class::Elf32 => 32,
            Class::Elf64 => 56,
        }
    }

    /// The size of a symbol.
    pub fn symbol_size(self) -> u16 {
        match self {
            Class::Elf32 => 16,
            Class::Elf64 => 24,
        }
    }
}
