//! Program headers (ELF gABI, Program Header).
ghost use Rattle.std.specs.Prelude.{◌≡◌, ◌≤◌, length};
ghost use Rattle.blz_records.specs.Classes.{by_class};

use crate::class::of_either;
use crate::numbers::{u32_in, u64_in};
use crate::{ByteOrder, ElfN, Has32BitTy, Pod};

/// A program header of class 32.
#[derive(Clone, Copy, Default)]
pub struct Elf32_Phdr {
    pub p_type: u32,
    pub p_offset: u32,
    pub p_vaddr: u32,
    pub p_paddr: u32,
    pub p_filesz: u32,
    pub p_memsz: u32,
    pub p_flags: u32,
    pub p_align: u32,
}

impl Pod for Elf32_Phdr {
    ghost use Rattle.blz_records.specs.ProgramHeaders.{phdr32};

    const SIZE: usize = 32;

    ghost SIZE = { 32 };

    ghost value = { phdr32 };

    fn read(bytes: &[u8], order: ByteOrder) -> Elf32_Phdr {
        let bytes = &bytes[..32];
        Elf32_Phdr {
            p_type: u32_in(bytes, 0, order),
            p_offset: u32_in(bytes, 4, order),
            p_vaddr: u32_in(bytes, 8, order),
            p_paddr: u32_in(bytes, 12, order),
            p_filesz: u32_in(bytes, 16, order),
            p_memsz: u32_in(bytes, 20, order),
            p_flags: u32_in(bytes, 24, order),
            p_align: u32_in(bytes, 28, order),
        }
    }
}

/// A program header of class 64.
#[derive(Clone, Copy, Default)]
pub struct Elf64_Phdr {
    pub p_type: u32,
    pub p_flags: u32,
    pub p_offset: u64,
    pub p_vaddr: u64,
    pub p_paddr: u64,
    pub p_filesz: u64,
    pub p_memsz: u64,
    pub p_align: u64,
}

impl Pod for Elf64_Phdr {
    ghost use Rattle.blz_records.specs.ProgramHeaders.{phdr64};

    const SIZE: usize = 56;

    ghost SIZE = { 56 };

    ghost value = { phdr64 };

    fn read(bytes: &[u8], order: ByteOrder) -> Elf64_Phdr {
        let bytes = &bytes[..56];
        Elf64_Phdr {
            p_type: u32_in(bytes, 0, order),
            p_flags: u32_in(bytes, 4, order),
            p_offset: u64_in(bytes, 8, order),
            p_vaddr: u64_in(bytes, 16, order),
            p_paddr: u64_in(bytes, 24, order),
            p_filesz: u64_in(bytes, 32, order),
            p_memsz: u64_in(bytes, 40, order),
            p_align: u64_in(bytes, 48, order),
        }
    }
}

impl Has32BitTy for Elf64_Phdr {
    type Ty32Bit = Elf32_Phdr;
}

impl From<&Elf32_Phdr> for Elf64_Phdr {
    ghost use Rattle.std.specs.Prelude.{◌≡◌};
    ghost use Rattle.blz_records.specs.ProgramHeaders.{wide_phdr};

    ghost from_gives = { λ narrow wide. wide ≡ wide_phdr narrow.now };

    fn from(narrow: &Elf32_Phdr) -> Elf64_Phdr {
        Elf64_Phdr {
            p_type: narrow.p_type,
            p_flags: narrow.p_flags,
            p_offset: u64::from(narrow.p_offset),
            p_vaddr: u64::from(narrow.p_vaddr),
            p_paddr: u64::from(narrow.p_paddr),
            p_filesz: u64::from(narrow.p_filesz),
            p_memsz: u64::from(narrow.p_memsz),
            p_align: u64::from(narrow.p_align),
        }
    }
}

/// A program header of either class.
pub type ElfN_Phdr = ElfN<Elf64_Phdr>;

impl ElfN<Elf64_Phdr> {
    /// The kind of the segment.
    pub fn type_(&self) -> u32
        ensures { result ≡ by_class (λ r. r.p_type) (λ r. r.p_type) self.now }
    {
        of_either!(self, p_type)
    }

    /// Where the bytes begin in the file.
    pub fn offset(&self) -> u64
        ensures { result ≡ by_class (λ r. r.p_offset) (λ r. r.p_offset) self.now }
    {
        of_either!(self, p_offset, widened)
    }

    /// The number of bytes in the file.
    pub fn file_size(&self) -> u64
        ensures { result ≡ by_class (λ r. r.p_filesz) (λ r. r.p_filesz) self.now }
    {
        of_either!(self, p_filesz, widened)
    }
}
