//! Headers of compressed sections (ELF gABI, Compression Header).
ghost use Rattle.std.specs.Prelude.{◌≡◌, ◌≤◌, length};

use crate::numbers::{u32_in, u64_in};
use crate::{ByteOrder, Has32BitTy, Pod};

/// A header of a compressed section of class 32.
#[derive(Clone, Copy)]
pub struct Elf32_Chdr {
    pub ch_type: u32,
    pub ch_size: u32,
    pub ch_addralign: u32,
}

impl Pod for Elf32_Chdr {
    ghost use Rattle.blz_records.specs.CompressionHeaders.{chdr32};

    const SIZE: usize = 12;

    ghost SIZE = { 12 };

    ghost value = { chdr32 };

    fn read(bytes: &[u8], order: ByteOrder) -> Elf32_Chdr {
        let bytes = &bytes[..12];
        Elf32_Chdr {
            ch_type: u32_in(bytes, 0, order),
            ch_size: u32_in(bytes, 4, order),
            ch_addralign: u32_in(bytes, 8, order),
        }
    }
}

/// A header of a compressed section of class 64.
#[derive(Clone, Copy)]
pub struct Elf64_Chdr {
    pub ch_type: u32,
    pub ch_reserved: u32,
    pub ch_size: u64,
    pub ch_addralign: u64,
}

impl Pod for Elf64_Chdr {
    ghost use Rattle.blz_records.specs.CompressionHeaders.{chdr64};

    const SIZE: usize = 24;

    ghost SIZE = { 24 };

    ghost value = { chdr64 };

    fn read(bytes: &[u8], order: ByteOrder) -> Elf64_Chdr {
        let bytes = &bytes[..24];
        Elf64_Chdr {
            ch_type: u32_in(bytes, 0, order),
            ch_reserved: u32_in(bytes, 4, order),
            ch_size: u64_in(bytes, 8, order),
            ch_addralign: u64_in(bytes, 16, order),
        }
    }
}

impl Has32BitTy for Elf64_Chdr {
    type Ty32Bit = Elf32_Chdr;
}
