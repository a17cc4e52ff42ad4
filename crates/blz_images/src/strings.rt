//! A table of strings.
use std::alloc::{AllocError, Global};

/// Texts that each end with a zero byte, behind an empty one (ELF gABI, String Table).
#[derive(Drop)]
pub struct Strings {
    bytes: Vec<u8>,
}

impl Strings {
    /// The empty text alone.
    pub fn new(alloc: Global) -> Result<Strings, AllocError> {
        let mut bytes = Vec::new(alloc);
        bytes.push(0)?;
        Ok(Strings { bytes })
    }

    /// Puts a text, and gives its offset.
    pub fn put(&mut self, text: &str) -> Result<u32, AllocError> {
        let offset = u32::try_from(self.bytes.len()).unwrap_or(u32::MAX);
        self.bytes.extend_from_slice(text.as_bytes())?;
        self.bytes.push(0)?;
        Ok(offset)
    }

    /// The bytes of the table.
    pub fn bytes(&self) -> &[u8] {
        &self.bytes
    }
}
