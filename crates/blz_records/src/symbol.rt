//! Symbols (ELF gABI, Symbol Table).
ghost use Rattle.std.specs.Prelude.{◌≡◌, ◌≤◌, length};
ghost use Rattle.blz_records.specs.Classes.{by_class};
ghost use Rattle.blz_records.specs.SymbolTypes.{code_of, matches};

use crate::class::of_either;
use crate::numbers::{u16_in, u32_in, u64_in};
use crate::{ByteOrder, ElfN, Has32BitTy, Pod, SymType};

/// A symbol of class 32.
#[derive(Clone, Copy, Default)]
pub struct Elf32_Sym {
    pub st_name: u32,
    pub st_value: u32,
    pub st_size: u32,
    pub st_info: u8,
    pub st_other: u8,
    pub st_shndx: u16,
}

impl Pod for Elf32_Sym {
    ghost use Rattle.blz_records.specs.SymbolRecords.{sym32};

    const SIZE: usize = 16;

    ghost SIZE = { 16 };

    ghost value = { sym32 };

    fn read(bytes: &[u8], order: ByteOrder) -> Elf32_Sym {
        let bytes = &bytes[..16];
        Elf32_Sym {
            st_name: u32_in(bytes, 0, order),
            st_value: u32_in(bytes, 4, order),
            st_size: u32_in(bytes, 8, order),
            st_info: bytes[12],
            st_other: bytes[13],
            st_shndx: u16_in(bytes, 14, order),
        }
    }
}

/// A symbol of class 64.
#[derive(Clone, Copy, Default)]
pub struct Elf64_Sym {
    pub st_name: u32,
    pub st_info: u8,
    pub st_other: u8,
    pub st_shndx: u16,
    pub st_value: u64,
    pub st_size: u64,
}

impl Pod for Elf64_Sym {
    ghost use Rattle.blz_records.specs.SymbolRecords.{sym64};

    const SIZE: usize = 24;

    ghost SIZE = { 24 };

    ghost value = { sym64 };

    fn read(bytes: &[u8], order: ByteOrder) -> Elf64_Sym {
        let bytes = &bytes[..24];
        Elf64_Sym {
            st_name: u32_in(bytes, 0, order),
            st_info: bytes[4],
            st_other: bytes[5],
            st_shndx: u16_in(bytes, 6, order),
            st_value: u64_in(bytes, 8, order),
            st_size: u64_in(bytes, 16, order),
        }
    }
}

impl Has32BitTy for Elf64_Sym {
    type Ty32Bit = Elf32_Sym;
}

impl From<&Elf32_Sym> for Elf64_Sym {
    ghost use Rattle.std.specs.Prelude.{◌≡◌};
    ghost use Rattle.blz_records.specs.SymbolRecords.{wide_sym};

    ghost from_gives = { λ narrow wide. wide ≡ wide_sym narrow.now };

    fn from(narrow: &Elf32_Sym) -> Elf64_Sym {
        Elf64_Sym {
            st_name: narrow.st_name,
            st_info: narrow.st_info,
            st_other: narrow.st_other,
            st_shndx: narrow.st_shndx,
            st_value: u64::from(narrow.st_value),
            st_size: u64::from(narrow.st_size),
        }
    }
}

impl Elf32_Sym {
    /// The type of the symbol (ELF gABI, Symbol Table).
    pub fn type_(&self) -> u8
        ensures { result ≡ code_of self.now.st_info }
    {
        self.st_info % 16
    }

    /// Whether the symbol is of a type that is asked for.
    pub fn matches(&self, type_: SymType) -> bool
        ensures { result ≡ matches (code_of self.now.st_info) type_ }
    {
        type_.takes(self.type_())
    }
}

impl Elf64_Sym {
    /// The type of the symbol (ELF gABI, Symbol Table).
    pub fn type_(&self) -> u8
        ensures { result ≡ code_of self.now.st_info }
    {
        self.st_info % 16
    }

    /// Whether the symbol is of a type that is asked for.
    pub fn matches(&self, type_: SymType) -> bool
        ensures { result ≡ matches (code_of self.now.st_info) type_ }
    {
        type_.takes(self.type_())
    }
}

/// A symbol of either class.
pub type ElfN_Sym = ElfN<Elf64_Sym>;

impl ElfN<Elf64_Sym> {
    /// Where the name begins.
    pub fn name(&self) -> u32
        ensures { result ≡ by_class (λ r. r.st_name) (λ r. r.st_name) self.now }
    {
        of_either!(self, st_name)
    }

    /// The value.
    pub fn value(&self) -> u64
        ensures { result ≡ by_class (λ r. r.st_value) (λ r. r.st_value) self.now }
    {
        of_either!(self, st_value, widened)
    }

    /// The number of bytes that the symbol covers.
    pub fn size(&self) -> u64
        ensures { result ≡ by_class (λ r. r.st_size) (λ r. r.st_size) self.now }
    {
        of_either!(self, st_size, widened)
    }

    /// The section that the symbol stands in.
    pub fn shndx(&self) -> u16
        ensures { result ≡ by_class (λ r. r.st_shndx) (λ r. r.st_shndx) self.now }
    {
        of_either!(self, st_shndx)
    }

    /// The type of the symbol.
    pub fn type_(&self) -> u8
        ensures { result ≡ by_class (λ r. code_of r.st_info) (λ r. code_of r.st_info) self.now }
    {
        match self {
            ElfN::B32(r) => r.type_(),
            ElfN::B64(r) => r.type_(),
        }
    }

    /// Whether the symbol is of a type that is asked for.
    pub fn matches(&self, type_: SymType) -> bool
        ensures { result
            ≡ matches (by_class (λ r. code_of r.st_info) (λ r. code_of r.st_info) self.now) type_ }
    {
        type_.takes(self.type_())
    }
}
