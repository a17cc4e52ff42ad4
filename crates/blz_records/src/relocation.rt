//! Relocations (ELF gABI, Relocation).
ghost use Rattle.std.specs.Prelude.{◌≡◌, ◌≤◌, length, ◌/◌, ◌^◌};

use crate::numbers::{u32_in, u64_in};
use crate::{ByteOrder, Has32BitTy, Pod};

/// A relocation with an addend of class 32.
#[derive(Clone, Copy, Default)]
pub struct Elf32_Rela {
    pub r_offset: u32,
    pub r_info: u32,
    pub r_addend: i32,
}

impl Pod for Elf32_Rela {
    ghost use Rattle.blz_records.specs.RelocationRecords.{rela32};

    const SIZE: usize = 12;

    ghost SIZE = { 12 };

    ghost value = { rela32 };

    fn read(bytes: &[u8], order: ByteOrder) -> Elf32_Rela {
        let bytes = &bytes[..12];
        Elf32_Rela {
            r_offset: u32_in(bytes, 0, order),
            r_info: u32_in(bytes, 4, order),
            r_addend: u32_in(bytes, 8, order).cast_signed(),
        }
    }
}

/// A relocation with an addend of class 64.
#[derive(Clone, Copy, Default)]
pub struct Elf64_Rela {
    pub r_offset: u64,
    pub r_info: u64,
    pub r_addend: i64,
}

impl Pod for Elf64_Rela {
    ghost use Rattle.blz_records.specs.RelocationRecords.{rela64};

    const SIZE: usize = 24;

    ghost SIZE = { 24 };

    ghost value = { rela64 };

    fn read(bytes: &[u8], order: ByteOrder) -> Elf64_Rela {
        let bytes = &bytes[..24];
        Elf64_Rela {
            r_offset: u64_in(bytes, 0, order),
            r_info: u64_in(bytes, 8, order),
            r_addend: u64_in(bytes, 16, order).cast_signed(),
        }
    }
}

impl Has32BitTy for Elf64_Rela {
    type Ty32Bit = Elf32_Rela;
}

impl From<&Elf32_Rela> for Elf64_Rela {
    ghost use Rattle.std.specs.Prelude.{◌≡◌};
    ghost use Rattle.blz_records.specs.RelocationRecords.{wide_rela};

    ghost from_gives = { λ narrow wide. wide ≡ wide_rela narrow.now };

    fn from(narrow: &Elf32_Rela) -> Elf64_Rela {
        Elf64_Rela {
            r_offset: u64::from(narrow.r_offset),
            r_info: u64::from(narrow.r_info),
            r_addend: i64::from(narrow.r_addend),
        }
    }
}

/// A relocation of class 32.
#[derive(Clone, Copy, Default)]
pub struct Elf32_Rel {
    pub r_offset: u32,
    pub r_info: u32,
}

impl Pod for Elf32_Rel {
    ghost use Rattle.blz_records.specs.RelocationRecords.{rel32};

    const SIZE: usize = 8;

    ghost SIZE = { 8 };

    ghost value = { rel32 };

    fn read(bytes: &[u8], order: ByteOrder) -> Elf32_Rel {
        let bytes = &bytes[..8];
        Elf32_Rel {
            r_offset: u32_in(bytes, 0, order),
            r_info: u32_in(bytes, 4, order),
        }
    }
}

/// A relocation of class 64.
#[derive(Clone, Copy, Default)]
pub struct Elf64_Rel {
    pub r_offset: u64,
    pub r_info: u64,
}

impl Pod for Elf64_Rel {
    ghost use Rattle.blz_records.specs.RelocationRecords.{rel64};

    const SIZE: usize = 16;

    ghost SIZE = { 16 };

    ghost value = { rel64 };

    fn read(bytes: &[u8], order: ByteOrder) -> Elf64_Rel {
        let bytes = &bytes[..16];
        Elf64_Rel {
            r_offset: u64_in(bytes, 0, order),
            r_info: u64_in(bytes, 8, order),
        }
    }
}

impl Has32BitTy for Elf64_Rel {
    type Ty32Bit = Elf32_Rel;
}

impl From<&Elf32_Rel> for Elf64_Rel {
    ghost use Rattle.std.specs.Prelude.{◌≡◌};
    ghost use Rattle.blz_records.specs.RelocationRecords.{wide_rel};

    ghost from_gives = { λ narrow wide. wide ≡ wide_rel narrow.now };

    fn from(narrow: &Elf32_Rel) -> Elf64_Rel {
        Elf64_Rel {
            r_offset: u64::from(narrow.r_offset),
            r_info: u64::from(narrow.r_info),
        }
    }
}

impl Elf32_Rela {
    /// The number of the symbol (ELF gABI, Relocation).
    pub fn sym(&self) -> u32
        ensures { result ≡ self.now.r_info / 2 ^ 8 }
    {
        self.r_info >> 8
    }
}

impl Elf32_Rel {
    /// The number of the symbol (ELF gABI, Relocation).
    pub fn sym(&self) -> u32
        ensures { result ≡ self.now.r_info / 2 ^ 8 }
    {
        self.r_info >> 8
    }
}

impl Elf64_Rela {
    /// The number of the symbol (ELF gABI, Relocation).
    pub fn sym(&self) -> u32
        ensures { result ≡ self.now.r_info / 2 ^ 32 }
    {
        (self.r_info >> 32) as u32
    }
}

impl Elf64_Rel {
    /// The number of the symbol (ELF gABI, Relocation).
    pub fn sym(&self) -> u32
        ensures { result ≡ self.now.r_info / 2 ^ 32 }
    {
        (self.r_info >> 32) as u32
    }
}
