//! The records of the ELF format as plain values, read from bytes of either order.
#![tactic(auto)]

mod class;
mod compression;
mod file_header;
mod integers;
mod note;
mod numbers;
mod pod;
mod program_header;
mod relocation;
mod section_header;
mod sym_type;
mod symbol;

pub use blz_model::ByteOrder;
pub use class::{ElfN, Has32BitTy};
pub use compression::{Elf32_Chdr, Elf64_Chdr};
pub use file_header::{Elf32_Ehdr, Elf64_Ehdr, ElfN_Ehdr};
pub use note::{Elf32_Nhdr, Elf64_Nhdr, ElfN_Nhdr};
pub use numbers::{u16_in, u32_in, u64_in};
pub use pod::Pod;
pub use program_header::{Elf32_Phdr, Elf64_Phdr, ElfN_Phdr};
pub use relocation::{Elf32_Rel, Elf32_Rela, Elf64_Rel, Elf64_Rela};
pub use section_header::{Elf32_Shdr, Elf64_Shdr, ElfN_Shdr};
pub use sym_type::SymType;
pub use symbol::{Elf32_Sym, Elf64_Sym, ElfN_Sym};
