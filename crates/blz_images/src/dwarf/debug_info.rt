//! Units of debugging information entries.
use crate::{Attribute, ByteOrder, Class, Writer};
use std::alloc::{AllocError, Global};

/// What a unit of version 5 is (DWARF 5 section 7.5.1).
#[derive(Clone, Copy)]
pub enum UnitKind {
    /// A whole unit, as all those of earlier versions are.
    Whole,
    /// A unit whose functions stand in the split unit of this number.
    Skeleton(u64),
    /// The unit of a package of this number.
    Split(u64),
}

impl UnitKind {
    // DW_UT_compile, DW_UT_skeleton or DW_UT_split_compile
    fn code(self) -> u8 {
        match self {
            UnitKind::Whole => 1,
            UnitKind::Skeleton(_) => 4,
            UnitKind::Split(_) => 5,
        }
    }

    fn id(self) -> Option<u64> {
        match self {
            UnitKind::Whole => None,
            UnitKind::Skeleton(id) | UnitKind::Split(id) => Some(id),
        }
    }
}

/// The bytes of `.debug_abbrev` and `.debug_info`, written entry by entry, in 32-bit DWARF with addresses of 64 bits
/// (DWARF 5 section 7.5). All units share one table, in which each entry has an abbreviation of its own.
#[derive(Drop)]
pub struct DebugInfo {
    alloc: Global,
    order: ByteOrder,
    version: u16,
    kind: UnitKind,
    abbreviations: Writer,
    code: u64,
    // the units that have ended, and the entries of the one that has not
    units: Writer,
    entries: Writer,
}

impl DebugInfo {
    /// No unit yet.
    pub fn new(alloc: Global, order: ByteOrder, version: u16) -> DebugInfo {
        DebugInfo {
            alloc,
            order,
            version,
            kind: UnitKind::Whole,
            abbreviations: Writer::new(alloc, Class::Elf64, order),
            code: 0,
            units: Writer::new(alloc, Class::Elf64, order),
            entries: Writer::new(alloc, Class::Elf64, order),
        }
    }

    /// Says what the next units are, before their first entry.
    pub fn of_kind(&mut self, kind: UnitKind) {
        self.kind = kind;
    }

    /// An entry whose children follow, up to `close`.
    pub fn open(&mut self, tag: u64, attributes: &[Attribute<'_>]) -> Result<(), AllocError> {
        self.put(tag, 1, attributes)
    }

    /// An entry without children.
    pub fn entry(&mut self, tag: u64, attributes: &[Attribute<'_>]) -> Result<(), AllocError> {
        self.put(tag, 0, attributes)
    }

    /// Ends the children of the last entry that is open.
    pub fn close(&mut self) -> Result<(), AllocError> {
        self.entries.u8(0)
    }

    /// Bytes as they are, in place of an entry.
    pub fn raw(&mut self, bytes: &[u8]) -> Result<(), AllocError> {
        self.entries.raw(bytes)
    }

    /// The place that the next entry has in its unit, as a reference gives it.
    pub fn place(&self) -> u32 {
        u32::try_from(self.entries.len())
            .unwrap_or(0)
            .saturating_add(self.header_size())
    }

    /// The offset in `.debug_info` of the unit that is being written.
    pub fn unit_offset(&self) -> u32 {
        u32::try_from(self.units.len()).unwrap_or(0)
    }

    /// Ends the unit: puts its header, and its entries behind it.
    pub fn end_unit(&mut self) -> Result<(), AllocError> {
        let next = Writer::new(self.alloc, Class::Elf64, self.order);
        // all but the length itself
        let length = self.place().saturating_sub(4);
        self.units.u32(length)?;
        self.units.u16(self.version)?;
        if self.version >= 5 {
            self.units.u8(self.kind.code())?;
            self.units.u8(8)?;
            self.units.u32(0)?;
            if let Some(id) = self.kind.id() {
                self.units.u64(id)?;
            }
        } else {
            self.units.u32(0)?;
            self.units.u8(8)?;
        }
        self.units.raw(self.entries.bytes())?;
        self.entries = next;
        Ok(())
    }

    pub fn order(&self) -> ByteOrder {
        self.order
    }

    /// The bytes of `.debug_info`, of the units that have ended.
    pub fn info(&self) -> &[u8] {
        self.units.bytes()
    }

    /// The bytes of `.debug_abbrev`, with the zero byte that ends the table.
    pub fn abbreviations(&self) -> Result<Vec<u8>, AllocError> {
        let mut table = Writer::new(self.alloc, Class::Elf64, self.order);
        table.raw(self.abbreviations.bytes())?;
        table.u8(0)?;
        Ok(table.into_bytes())
    }

    fn put(
        &mut self,
        tag: u64,
        children: u8,
        attributes: &[Attribute<'_>],
    ) -> Result<(), AllocError> {
        self.code = self.code.saturating_add(1);
        self.entries.uleb(self.code)?;
        self.abbreviations.uleb(self.code)?;
        self.abbreviations.uleb(tag)?;
        self.abbreviations.u8(children)?;
        for attribute in attributes {
            self.abbreviations.uleb(attribute.name)?;
            self.abbreviations.uleb(attribute.form)?;
            attribute.write(&mut self.entries)?;
        }
        self.abbreviations.u16(0)
    }

    // length, version, offset of the table and size of an address; from version 5 on the type of the unit, and its
    // number where it has one
    fn header_size(&self) -> u32 {
        match (self.version >= 5, self.kind.id()) {
            (false, _) => 11,
            (true, None) => 12,
            (true, Some(_)) => 20,
        }
    }
}
