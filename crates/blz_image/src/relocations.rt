//! The relocations of an image, by the sections that they lie in (ELF gABI, Relocation).

pub(crate) mod effect;
pub(crate) mod entries;
pub(crate) mod read_places;
pub mod relocating;
pub(crate) mod table;
pub(crate) mod target;
