//! Section headers (ELF gABI, Section Header Table).
ghost use Rattle.std.specs.Prelude.{◌≡◌, ◌≤◌, length};
ghost use Rattle.blz_records.specs.Classes.{by_class};

use crate::class::of_either;
use crate::numbers::{u32_in, u64_in};
use crate::{ByteOrder, ElfN, Has32BitTy, Pod};

/// A section header of class 32.
#[derive(Clone, Copy, Default)]
pub struct Elf32_Shdr {
    pub sh_name: u32,
    pub sh_type: u32,
    pub sh_flags: u32,
    pub sh_addr: u32,
    pub sh_offset: u32,
    pub sh_size: u32,
    pub sh_link: u32,
    pub sh_info: u32,
    pub sh_addralign: u32,
    pub sh_entsize: u32,
}

impl Pod for Elf32_Shdr {
    ghost use Rattle.blz_records.specs.SectionHeaders.{shdr32};

    const SIZE: usize = 40;

    ghost SIZE = { 40 };

    ghost value = { shdr32 };

    fn read(bytes: &[u8], order: ByteOrder) -> Elf32_Shdr {
        let bytes = &bytes[..40];
        Elf32_Shdr {
            sh_name: u32_in(bytes, 0, order),
            sh_type: u32_in(bytes, 4, order),
            sh_flags: u32_in(bytes, 8, order),
            sh_addr: u32_in(bytes, 12, order),
            sh_offset: u32_in(bytes, 16, order),
            sh_size: u32_in(bytes, 20, order),
            sh_link: u32_in(bytes, 24, order),
            sh_info: u32_in(bytes, 28, order),
            sh_addralign: u32_in(bytes, 32, order),
            sh_entsize: u32_in(bytes, 36, order),
        }
    }
}

/// A section header of class 64.
#[derive(Clone, Copy, Default)]
pub struct Elf64_Shdr {
    pub sh_name: u32,
    pub sh_type: u32,
    pub sh_flags: u64,
    pub sh_addr: u64,
    pub sh_offset: u64,
    pub sh_size: u64,
    pub sh_link: u32,
    pub sh_info: u32,
    pub sh_addralign: u64,
    pub sh_entsize: u64,
}

impl Pod for Elf64_Shdr {
    ghost use Rattle.blz_records.specs.SectionHeaders.{shdr64};

    const SIZE: usize = 64;

    ghost SIZE = { 64 };

    ghost value = { shdr64 };

    fn read(bytes: &[u8], order: ByteOrder) -> Elf64_Shdr {
        let bytes = &bytes[..64];
        Elf64_Shdr {
            sh_name: u32_in(bytes, 0, order),
            sh_type: u32_in(bytes, 4, order),
            sh_flags: u64_in(bytes, 8, order),
            sh_addr: u64_in(bytes, 16, order),
            sh_offset: u64_in(bytes, 24, order),
            sh_size: u64_in(bytes, 32, order),
            sh_link: u32_in(bytes, 40, order),
            sh_info: u32_in(bytes, 44, order),
            sh_addralign: u64_in(bytes, 48, order),
            sh_entsize: u64_in(bytes, 56, order),
        }
    }
}

impl Has32BitTy for Elf64_Shdr {
    type Ty32Bit = Elf32_Shdr;
}

impl From<&Elf32_Shdr> for Elf64_Shdr {
    ghost use Rattle.std.specs.Prelude.{◌≡◌};
    ghost use Rattle.blz_records.specs.SectionHeaders.{wide_shdr};

    ghost from_gives = { λ narrow wide. wide ≡ wide_shdr narrow.now };

    fn from(narrow: &Elf32_Shdr) -> Elf64_Shdr {
        Elf64_Shdr {
            sh_name: narrow.sh_name,
            sh_type: narrow.sh_type,
            sh_flags: u64::from(narrow.sh_flags),
            sh_addr: u64::from(narrow.sh_addr),
            sh_offset: u64::from(narrow.sh_offset),
            sh_size: u64::from(narrow.sh_size),
            sh_link: narrow.sh_link,
            sh_info: narrow.sh_info,
            sh_addralign: u64::from(narrow.sh_addralign),
            sh_entsize: u64::from(narrow.sh_entsize),
        }
    }
}

/// A section header of either class.
pub type ElfN_Shdr = ElfN<Elf64_Shdr>;

impl ElfN<Elf64_Shdr> {
    /// Where the name begins.
    pub fn name(&self) -> u32
        ensures { result ≡ by_class (λ r. r.sh_name) (λ r. r.sh_name) self.now }
    {
        of_either!(self, sh_name)
    }

    /// The kind of the section.
    pub fn type_(&self) -> u32
        ensures { result ≡ by_class (λ r. r.sh_type) (λ r. r.sh_type) self.now }
    {
        of_either!(self, sh_type)
    }

    /// The attributes of the section.
    pub fn flags(&self) -> u64
        ensures { result ≡ by_class (λ r. r.sh_flags) (λ r. r.sh_flags) self.now }
    {
        of_either!(self, sh_flags, widened)
    }

    /// The address of the first byte.
    pub fn addr(&self) -> u64
        ensures { result ≡ by_class (λ r. r.sh_addr) (λ r. r.sh_addr) self.now }
    {
        of_either!(self, sh_addr, widened)
    }

    /// Where the bytes begin in the file.
    pub fn offset(&self) -> u64
        ensures { result ≡ by_class (λ r. r.sh_offset) (λ r. r.sh_offset) self.now }
    {
        of_either!(self, sh_offset, widened)
    }

    /// The number of bytes.
    pub fn size(&self) -> u64
        ensures { result ≡ by_class (λ r. r.sh_size) (λ r. r.sh_size) self.now }
    {
        of_either!(self, sh_size, widened)
    }

    /// The section that this one goes with.
    pub fn link(&self) -> u32
        ensures { result ≡ by_class (λ r. r.sh_link) (λ r. r.sh_link) self.now }
    {
        of_either!(self, sh_link)
    }

    /// A further number, by the kind of the section.
    pub fn info(&self) -> u32
        ensures { result ≡ by_class (λ r. r.sh_info) (λ r. r.sh_info) self.now }
    {
        of_either!(self, sh_info)
    }

    /// The size of an entry, as the header says.
    pub fn entsize(&self) -> u64
        ensures { result ≡ by_class (λ r. r.sh_entsize) (λ r. r.sh_entsize) self.now }
    {
        of_either!(self, sh_entsize, widened)
    }
}
