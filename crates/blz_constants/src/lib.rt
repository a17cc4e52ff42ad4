//! The numbers of the DWARF and ELF standards, by the names that they have there.
#![tactic(auto)]

pub mod dwarf;
pub mod elf;
