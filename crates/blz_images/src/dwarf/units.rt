//! Units of one function after the other, and the images that they stand in.
use crate::dwarf::codes::*;
use crate::{Attribute, DebugInfo, Image};
use std::alloc::{AllocError, Global};

/// SHT_PROGBITS.
const BYTES: u32 = 1;

impl DebugInfo {
    /// A unit whose root has the addresses [low, low + size). Its entries follow, up to `close_unit`.
    pub fn open_unit(&mut self, low: u64, size: u32) -> Result<(), AllocError> {
        self.open(
            DW_TAG_COMPILE_UNIT,
            &[
                Attribute::address(DW_AT_LOW_PC, low),
                Attribute::data4(DW_AT_HIGH_PC, size),
            ],
        )
    }

    /// A function of a name at [low, low + size).
    pub fn function(&mut self, name: &str, low: u64, size: u32) -> Result<(), AllocError> {
        self.entry(
            DW_TAG_SUBPROGRAM,
            &[
                Attribute::text(DW_AT_NAME, name),
                Attribute::address(DW_AT_LOW_PC, low),
                Attribute::data4(DW_AT_HIGH_PC, size),
            ],
        )
    }

    /// A function at [low, low + size), whose name is that of another entry.
    pub fn function_of(
        &mut self,
        origin: Attribute<'_>,
        low: u64,
        size: u32,
    ) -> Result<(), AllocError> {
        self.entry(
            DW_TAG_SUBPROGRAM,
            &[
                origin,
                Attribute::address(DW_AT_LOW_PC, low),
                Attribute::data4(DW_AT_HIGH_PC, size),
            ],
        )
    }

    /// Ends the children of the root, and the unit.
    pub fn close_unit(&mut self) -> Result<(), AllocError> {
        self.close()?;
        self.end_unit()
    }

    /// An image with these units, and the sections of these names beside them.
    pub fn image(&self, alloc: Global, sections: &[(&str, &[u8])]) -> Result<Vec<u8>, AllocError> {
        let abbreviations = self.abbreviations()?;
        let mut image = Image::elf64(alloc)
            .in_order(self.order())
            .section(".debug_abbrev", BYTES, &abbreviations)?
            .section(".debug_info", BYTES, self.info())?;
        for (name, bytes) in sections {
            image = image.section(name, BYTES, bytes)?;
        }
        image.bytes()
    }
}
