//! An ELF image: its sections, and the symbols of its addresses.
#![tactic(auto)]

mod answer;
mod fill;
mod find_addr_opts;
mod infos;
mod kept_names;
mod lookup;
mod opts;
mod parser;
mod record_slice;
mod show;
mod sym_info;
mod visit;
mod warm;

pub use answer::{Answer, CodeInfo, InlinedFn, InlinedFns, ResolvedSym};
pub use blz_model::{Reason, SrcLang};
pub use blz_records::{
    Elf32_Chdr, Elf32_Ehdr, Elf32_Nhdr, Elf32_Phdr, Elf32_Rel, Elf32_Rela, Elf32_Shdr, Elf32_Sym,
    Elf64_Chdr, Elf64_Ehdr, Elf64_Nhdr, Elf64_Phdr, Elf64_Rel, Elf64_Rela, Elf64_Shdr, Elf64_Sym,
    ElfN, ElfN_Ehdr, ElfN_Nhdr, ElfN_Phdr, ElfN_Shdr, ElfN_Sym, Has32BitTy, Pod, SymType,
};
pub use blz_relocations::{Flow, RelocationMap, SectionRelocations};
pub use find_addr_opts::FindAddrOpts;
pub use opts::FindSymOpts;
pub use parser::ElfParser;
pub use record_slice::{
    ElfN_Phdrs, ElfN_Relas, ElfN_Rels, ElfN_Shdrs, ElfN_Syms, ElfNIter, ElfNSlice, ElfNVec,
};
pub use sym_info::{SymInfo, SymInfoBuf, SymInfos};
pub use visit::{Collect, Visit};
pub use warm::ElfWarm;
