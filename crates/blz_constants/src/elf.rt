//! The numbers of the ELF gABI, by the names that they have there.

// the identification (ELF Header)
pub const EI_CLASS: usize = 4;

pub const EI_DATA: usize = 5;

pub const ELFMAG0: u8 = 0x7f;

pub const ELFMAG1: u8 = 0x45;

pub const ELFMAG2: u8 = 0x4c;

pub const ELFMAG3: u8 = 0x46;

pub const ELFCLASS32: u8 = 1;

pub const ELFCLASS64: u8 = 2;

pub const ELFDATA2LSB: u8 = 1;

pub const ELFDATA2MSB: u8 = 2;

// types of files (ELF Header)
pub const ET_REL: u16 = 1;

// numbers that do not fit the header (ELF Header)
pub const PN_XNUM: u16 = 0xffff;

// indexes of sections (Sections)
pub const SHN_UNDEF: u16 = 0;

pub const SHN_LORESERVE: u16 = 0xff00;

pub const SHN_XINDEX: u16 = 0xffff;

// types and flags of sections (Sections)
pub const SHT_RELA: u32 = 4;

pub const SHT_NOTE: u32 = 7;

pub const SHT_NOBITS: u32 = 8;

pub const SHT_REL: u32 = 9;

pub const SHF_COMPRESSED: u64 = 0x800;

// types of symbols (Symbol Table)
pub const STT_NOTYPE: u8 = 0;

pub const STT_OBJECT: u8 = 1;

pub const STT_FUNC: u8 = 2;

pub const STT_GNU_IFUNC: u8 = 10;

// types of segments (Program Header)
pub const PT_LOAD: u32 = 1;

pub const PT_NOTE: u32 = 4;

// types of notes (GNU)
pub const NT_GNU_BUILD_ID: u32 = 3;
