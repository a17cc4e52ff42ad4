//! A segment of an image.
use crate::{Class, Writer};
use std::alloc::AllocError;

/// A segment: which bytes of the file lie at which addresses (ELF gABI, Program Header).
#[derive(Clone, Copy)]
pub struct Segment {
    /// The type: 1 for a segment that is loaded, 4 for notes.
    pub kind: u32,
    pub offset: u64,
    pub address: u64,
    pub file_size: u64,
}

impl Segment {
    pub(crate) fn write(&self, out: &mut Writer) -> Result<(), AllocError> {
        out.u32(self.kind)?;
        if out.class() == Class::Elf64 {
            out.u32(0)?;
        }
        out.word(self.offset)?;
        out.word(self.address)?;
        out.word(self.address)?;
        out.word(self.file_size)?;
        out.word(self.file_size)?;
        if out.class() == Class::Elf32 {
            out.u32(0)?;
        }
        out.word(1)
    }
}
