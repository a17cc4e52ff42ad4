//! Sections that lead to other files, and notes.
use crate::{ByteOrder, Class, Writer};
use std::alloc::{AllocError, Global};

// the zero bytes up to the next multiple of four
fn pad(out: &mut Writer) -> Result<(), AllocError> {
    let over = (out.len() % 4) as u16;
    if over > 0 {
        out.zeros(4 - over)
    } else {
        Ok(())
    }
}

/// The bytes of a `.gnu_debuglink` section: a file's name and the checksum of its bytes (GNU debug links).
pub fn debug_link(
    alloc: Global,
    order: ByteOrder,
    file: &str,
    checksum: u32,
) -> Result<Vec<u8>, AllocError> {
    let mut out = Writer::new(alloc, Class::Elf64, order);
    out.text(file)?;
    pad(&mut out)?;
    out.u32(checksum)?;
    Ok(out.into_bytes())
}

/// The bytes of a `.gnu_debugaltlink` section: a file's path and its build id (GNU debug links).
pub fn debug_altlink(alloc: Global, path: &str, build_id: &[u8]) -> Result<Vec<u8>, AllocError> {
    let mut out = Writer::new(alloc, Class::Elf64, ByteOrder::Little);
    out.text(path)?;
    out.raw(build_id)?;
    Ok(out.into_bytes())
}

/// The bytes of a `.debug_sup` section of version 5: the path of the supplementary file, or an empty one in that file
/// itself, and the checksum of both (DWARF 5 section 7.3.6).
pub fn debug_sup(
    alloc: Global,
    order: ByteOrder,
    path: &str,
    checksum: &[u8],
) -> Result<Vec<u8>, AllocError> {
    let mut out = Writer::new(alloc, Class::Elf64, order);
    out.u16(5)?;
    out.u8(if path.is_empty() { 1 } else { 0 })?;
    out.text(path)?;
    out.uleb(checksum.len() as u64)?;
    out.raw(checksum)?;
    Ok(out.into_bytes())
}

/// A note of a type, padded to a multiple of four (ELF gABI, Note Section).
pub fn note(
    alloc: Global,
    order: ByteOrder,
    kind: u32,
    name: &[u8],
    descriptor: &[u8],
) -> Result<Vec<u8>, AllocError> {
    let mut out = Writer::new(alloc, Class::Elf64, order);
    out.u32((name.len() % (1 << 32)) as u32)?;
    out.u32((descriptor.len() % (1 << 32)) as u32)?;
    out.u32(kind)?;
    out.raw(name)?;
    pad(&mut out)?;
    out.raw(descriptor)?;
    pad(&mut out)?;
    Ok(out.into_bytes())
}

/// The note that has a build id.
pub fn build_id_note(
    alloc: Global,
    order: ByteOrder,
    build_id: &[u8],
) -> Result<Vec<u8>, AllocError> {
    note(alloc, order, 3, b"GNU\0", build_id)
}
