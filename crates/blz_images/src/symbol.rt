//! A symbol of an image.
use crate::{Class, Writer};
use std::alloc::AllocError;

/// A symbol: what its name is, where it lies and of which type it is (ELF gABI, Symbol Table).
#[derive(Clone, Copy)]
pub struct Symbol<'a> {
    pub name: &'a str,
    pub value: u64,
    pub size: u64,
    /// The type: 0 none, 1 a variable, 2 a function, 10 an indirect function.
    pub kind: u8,
    /// The number of the section that it is defined in: 0 for an undefined one.
    pub section: u16,
}

impl<'a> Symbol<'a> {
    /// A function that is defined in the first section.
    pub fn function(name: &'a str, value: u64, size: u64) -> Symbol<'a> {
        Symbol {
            name,
            value,
            size,
            kind: 2,
            section: 1,
        }
    }

    /// The same, as a variable.
    pub fn variable(self) -> Symbol<'a> {
        Symbol {
            name: self.name,
            value: self.value,
            size: self.size,
            kind: 1,
            section: self.section,
        }
    }

    /// The same, defined in no section.
    pub fn undefined(self) -> Symbol<'a> {
        self.in_section(0)
    }

    /// The same, defined in the section of this number.
    pub fn in_section(self, section: u16) -> Symbol<'a> {
        Symbol {
            name: self.name,
            value: self.value,
            size: self.size,
            kind: self.kind,
            section,
        }
    }

    // the type, of a symbol that other files see (STB_GLOBAL)
    fn info(&self) -> u8 {
        16 | self.kind
    }

    // the record, with the offset of its name
    pub(crate) fn write(&self, out: &mut Writer, name: u32) -> Result<(), AllocError> {
        out.u32(name)?;
        match out.class() {
            Class::Elf32 => {
                out.word(self.value)?;
                out.word(self.size)?;
                out.u8(self.info())?;
                out.u8(0)?;
                out.u16(self.section)
            }
            Class::Elf64 => {
                out.u8(self.info())?;
                out.u8(0)?;
                out.u16(self.section)?;
                out.word(self.value)?;
                out.word(self.size)
            }
        }
    }
}
