//! Headers of notes (ELF gABI, Note Section).
ghost use Rattle.std.specs.Prelude.{◌≡◌, ◌≤◌, length};

use crate::numbers::u32_in;
use crate::{ByteOrder, Has32BitTy, Pod};

/// A header of a note of class 32.
#[derive(Clone, Copy, Default)]
pub struct Elf32_Nhdr {
    pub n_namesz: u32,
    pub n_descsz: u32,
    pub n_type: u32,
}

impl Pod for Elf32_Nhdr {
    ghost use Rattle.blz_records.specs.NoteHeaders.{nhdr32};

    const SIZE: usize = 12;

    ghost SIZE = { 12 };

    ghost value = { nhdr32 };

    fn read(bytes: &[u8], order: ByteOrder) -> Elf32_Nhdr {
        let bytes = &bytes[..12];
        Elf32_Nhdr {
            n_namesz: u32_in(bytes, 0, order),
            n_descsz: u32_in(bytes, 4, order),
            n_type: u32_in(bytes, 8, order),
        }
    }
}

/// A header of a note of class 64.
#[derive(Clone, Copy, Default)]
pub struct Elf64_Nhdr {
    pub n_namesz: u32,
    pub n_descsz: u32,
    pub n_type: u32,
}

impl Pod for Elf64_Nhdr {
    ghost use Rattle.blz_records.specs.NoteHeaders.{nhdr64};

    const SIZE: usize = 12;

    ghost SIZE = { 12 };

    ghost value = { nhdr64 };

    fn read(bytes: &[u8], order: ByteOrder) -> Elf64_Nhdr {
        let bytes = &bytes[..12];
        Elf64_Nhdr {
            n_namesz: u32_in(bytes, 0, order),
            n_descsz: u32_in(bytes, 4, order),
            n_type: u32_in(bytes, 8, order),
        }
    }
}

impl Has32BitTy for Elf64_Nhdr {
    type Ty32Bit = Elf32_Nhdr;
}

/// A header of a note, which is the same in both classes.
pub type ElfN_Nhdr = Elf64_Nhdr;
