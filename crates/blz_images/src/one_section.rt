//! Images of one section, of the 64-bit class in the little-endian order.
use crate::{ByteOrder, Image, Section, build_id_note};
use std::alloc::{AllocError, Global};

/// An image with a section of these bytes.
pub fn with_section(alloc: Global, name: &str, bytes: &[u8]) -> Result<Vec<u8>, AllocError> {
    Image::elf64(alloc).section(name, 1, bytes)?.bytes()
}

/// An image with a section that is said to be compressed (SHF_COMPRESSED).
pub fn with_compressed_section(alloc: Global, name: &str) -> Result<Vec<u8>, AllocError> {
    let section = Section::new(name, 1, &[0; 24]).with_flags(0x800);
    Image::elf64(alloc).add_section(section)?.bytes()
}

/// An image with a build id.
pub fn with_build_id(alloc: Global, build_id: &[u8]) -> Result<Vec<u8>, AllocError> {
    let notes = build_id_note(alloc, ByteOrder::Little, build_id)?;
    Image::elf64(alloc).section(".note", 7, &notes)?.bytes()
}
