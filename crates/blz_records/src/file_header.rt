//! File headers (ELF gABI, ELF Header).
ghost use Rattle.std.specs.Prelude.{◌≡◌, ◌≤◌, length, slice_range};
ghost use Rattle.blz_records.specs.Classes.{by_class};

use crate::class::of_either;
use crate::numbers::{u16_in, u32_in, u64_in};
use crate::{ByteOrder, ElfN, Has32BitTy, Pod};

/// A file header of class 32.
#[derive(Clone, Copy, Default)]
pub struct Elf32_Ehdr {
    pub e_ident: [u8; 16],
    pub e_type: u16,
    pub e_machine: u16,
    pub e_version: u32,
    pub e_entry: u32,
    pub e_phoff: u32,
    pub e_shoff: u32,
    pub e_flags: u32,
    pub e_ehsize: u16,
    pub e_phentsize: u16,
    pub e_phnum: u16,
    pub e_shentsize: u16,
    pub e_shnum: u16,
    pub e_shstrndx: u16,
}

impl Pod for Elf32_Ehdr {
    ghost use Rattle.blz_records.specs.FileHeaders.{ehdr32};

    const SIZE: usize = 52;

    ghost SIZE = { 52 };

    ghost value = { ehdr32 };

    fn read(bytes: &[u8], order: ByteOrder) -> Elf32_Ehdr {
        let bytes = &bytes[..52];
        Elf32_Ehdr {
            e_ident: ident_of(bytes),
            e_type: u16_in(bytes, 16, order),
            e_machine: u16_in(bytes, 18, order),
            e_version: u32_in(bytes, 20, order),
            e_entry: u32_in(bytes, 24, order),
            e_phoff: u32_in(bytes, 28, order),
            e_shoff: u32_in(bytes, 32, order),
            e_flags: u32_in(bytes, 36, order),
            e_ehsize: u16_in(bytes, 40, order),
            e_phentsize: u16_in(bytes, 42, order),
            e_phnum: u16_in(bytes, 44, order),
            e_shentsize: u16_in(bytes, 46, order),
            e_shnum: u16_in(bytes, 48, order),
            e_shstrndx: u16_in(bytes, 50, order),
        }
    }
}

/// A file header of class 64.
#[derive(Clone, Copy, Default)]
pub struct Elf64_Ehdr {
    pub e_ident: [u8; 16],
    pub e_type: u16,
    pub e_machine: u16,
    pub e_version: u32,
    pub e_entry: u64,
    pub e_phoff: u64,
    pub e_shoff: u64,
    pub e_flags: u32,
    pub e_ehsize: u16,
    pub e_phentsize: u16,
    pub e_phnum: u16,
    pub e_shentsize: u16,
    pub e_shnum: u16,
    pub e_shstrndx: u16,
}

impl Pod for Elf64_Ehdr {
    ghost use Rattle.blz_records.specs.FileHeaders.{ehdr64};

    const SIZE: usize = 64;

    ghost SIZE = { 64 };

    ghost value = { ehdr64 };

    fn read(bytes: &[u8], order: ByteOrder) -> Elf64_Ehdr {
        let bytes = &bytes[..64];
        Elf64_Ehdr {
            e_ident: ident_of(bytes),
            e_type: u16_in(bytes, 16, order),
            e_machine: u16_in(bytes, 18, order),
            e_version: u32_in(bytes, 20, order),
            e_entry: u64_in(bytes, 24, order),
            e_phoff: u64_in(bytes, 32, order),
            e_shoff: u64_in(bytes, 40, order),
            e_flags: u32_in(bytes, 48, order),
            e_ehsize: u16_in(bytes, 52, order),
            e_phentsize: u16_in(bytes, 54, order),
            e_phnum: u16_in(bytes, 56, order),
            e_shentsize: u16_in(bytes, 58, order),
            e_shnum: u16_in(bytes, 60, order),
            e_shstrndx: u16_in(bytes, 62, order),
        }
    }
}

impl Has32BitTy for Elf64_Ehdr {
    type Ty32Bit = Elf32_Ehdr;
}

// the sixteen bytes that identify a file
fn ident_of(bytes: &[u8]) -> [u8; 16]
    requires { 16 ≤ length bytes.now }
    ensures { result ≡ slice_range bytes.now 0 16 }
{
    match bytes[..16].try_into() {
        Ok(ident) => ident,
        Err(_) => [0; 16],
    }
}

/// A file header of either class.
pub type ElfN_Ehdr = ElfN<Elf64_Ehdr>;

impl ElfN<Elf64_Ehdr> {
    /// The kind of the file.
    pub fn type_(&self) -> u16
        ensures { result ≡ by_class (λ r. r.e_type) (λ r. r.e_type) self.now }
    {
        of_either!(self, e_type)
    }

    /// Where the program headers begin.
    pub fn phoff(&self) -> u64
        ensures { result ≡ by_class (λ r. r.e_phoff) (λ r. r.e_phoff) self.now }
    {
        of_either!(self, e_phoff, widened)
    }

    /// Where the section headers begin.
    pub fn shoff(&self) -> u64
        ensures { result ≡ by_class (λ r. r.e_shoff) (λ r. r.e_shoff) self.now }
    {
        of_either!(self, e_shoff, widened)
    }

    /// The number of program headers, as the header says.
    pub fn phnum(&self) -> u16
        ensures { result ≡ by_class (λ r. r.e_phnum) (λ r. r.e_phnum) self.now }
    {
        of_either!(self, e_phnum)
    }

    /// The number of section headers, as the header says.
    pub fn shnum(&self) -> u16
        ensures { result ≡ by_class (λ r. r.e_shnum) (λ r. r.e_shnum) self.now }
    {
        of_either!(self, e_shnum)
    }

    /// The section of the section names, as the header says.
    pub fn shstrndx(&self) -> u16
        ensures { result ≡ by_class (λ r. r.e_shstrndx) (λ r. r.e_shstrndx) self.now }
    {
        of_either!(self, e_shstrndx)
    }
}
