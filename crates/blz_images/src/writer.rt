//! Numbers and texts as the bytes of an image.
use crate::{ByteOrder, Class};
use std::alloc::{AllocError, Global};

/// Bytes of one class and order, written one field after the other.
#[derive(Drop)]
pub struct Writer {
    class: Class,
    order: ByteOrder,
    bytes: Vec<u8>,
}

impl Writer {
    /// No bytes yet.
    pub fn new(alloc: Global, class: Class, order: ByteOrder) -> Writer {
        Writer {
            class,
            order,
            bytes: Vec::new(alloc),
        }
    }

    pub fn class(&self) -> Class {
        self.class
    }

    /// What was written.
    pub fn bytes(&self) -> &[u8] {
        &self.bytes
    }

    /// What was written, without a copy.
    pub fn into_bytes(self) -> Vec<u8> {
        self.bytes
    }

    /// How much was written.
    pub fn len(&self) -> u64 {
        self.bytes.len() as u64
    }

    /// Bytes as they are.
    pub fn raw(&mut self, bytes: &[u8]) -> Result<(), AllocError> {
        self.bytes.extend_from_slice(bytes)
    }

    /// A text and a zero byte.
    pub fn text(&mut self, text: &str) -> Result<(), AllocError> {
        self.raw(text.as_bytes())?;
        self.u8(0)
    }

    /// Zero bytes.
    pub fn zeros(&mut self, count: u16) -> Result<(), AllocError> {
        for _ in 0..count {
            self.u8(0)?;
        }
        Ok(())
    }

    pub fn u8(&mut self, number: u8) -> Result<(), AllocError> {
        self.raw(&[number])
    }

    // a number as it is spelled in the order of the file
    fn in_order(&mut self, little: &[u8], big: &[u8]) -> Result<(), AllocError> {
        match self.order {
            ByteOrder::Little => self.raw(little),
            ByteOrder::Big => self.raw(big),
        }
    }

    pub fn u16(&mut self, number: u16) -> Result<(), AllocError> {
        self.in_order(&number.to_le_bytes(), &number.to_be_bytes())
    }

    pub fn u32(&mut self, number: u32) -> Result<(), AllocError> {
        self.in_order(&number.to_le_bytes(), &number.to_be_bytes())
    }

    pub fn u64(&mut self, number: u64) -> Result<(), AllocError> {
        self.in_order(&number.to_le_bytes(), &number.to_be_bytes())
    }

    /// An address or an offset, as wide as the class has them; only the lower half is kept of one that is too wide.
    pub fn word(&mut self, number: u64) -> Result<(), AllocError> {
        match self.class {
            Class::Elf32 => self.u32((number % (1 << 32)) as u32),
            Class::Elf64 => self.u64(number),
        }
    }

    /// A LEB128 number without a sign (DWARF 5 section 7.6).
    pub fn uleb(&mut self, number: u64) -> Result<(), AllocError> {
        let mut rest = number;
        for _ in 0..9 {
            if rest < 128 {
                break;
            }
            self.u8((rest % 128) as u8 + 128)?;
            rest /= 128;
        }
        self.u8((rest % 128) as u8)
    }
}

/// The first bytes, or all where there are fewer.
pub fn prefix(bytes: &[u8], len: usize) -> &[u8] {
    bytes.get(..len).unwrap_or(bytes)
}

/// The bytes with another one at a place, where there is one.
pub fn patched(mut bytes: Vec<u8>, at: usize, byte: u8) -> Vec<u8> {
    if let Some(place) = bytes.get_mut(at) {
        *place = byte;
    }
    bytes
}
