//! An ELF image as its bytes tell it: the header, tables of records, sections, segments, texts, symbols, relocations.
#![tactic(auto)]

pub mod format;
pub mod header;
pub mod image;
mod number;
pub mod record;
pub mod relocations;
pub mod section;
pub mod segments;
pub mod span;
pub mod symbols;
pub mod text;
