//! Packages of split units.
use crate::{ByteOrder, Class, DebugInfo, Image, Writer};
use std::alloc::{AllocError, Global};

/// SHT_PROGBITS.
const BYTES: u32 = 1;

/// DW_SECT_INFO and DW_SECT_ABBREV.
const COLUMNS: [u32; 2] = [1, 3];

/// Where a part begins in its section, and its size.
pub type Extent = (u32, u32);

/// The bytes of `.debug_cu_index`, with a column for `.debug_info.dwo` and one for `.debug_abbrev.dwo` (DWARF 5 section
/// 7.3.5.3).
#[derive(Drop)]
pub struct UnitIndex {
    alloc: Global,
    order: ByteOrder,
    ids: Writer,
    row_numbers: Writer,
    slots: u32,
    offsets: Writer,
    sizes: Writer,
    rows: u32,
}

impl UnitIndex {
    /// No slot and no row.
    pub fn new(alloc: Global, order: ByteOrder) -> UnitIndex {
        UnitIndex {
            alloc,
            order,
            ids: Writer::new(alloc, Class::Elf64, order),
            row_numbers: Writer::new(alloc, Class::Elf64, order),
            slots: 0,
            offsets: Writer::new(alloc, Class::Elf64, order),
            sizes: Writer::new(alloc, Class::Elf64, order),
            rows: 0,
        }
    }

    /// Adds a slot: the number of a unit, and its row, counted from 1; 0 for none.
    pub fn slot(&mut self, id: u64, row: u32) -> Result<(), AllocError> {
        self.slots = self.slots.saturating_add(1);
        self.ids.u64(id)?;
        self.row_numbers.u32(row)
    }

    /// Adds a row: where the entries and the abbreviations of a unit lie.
    pub fn row(&mut self, info: Extent, abbreviations: Extent) -> Result<(), AllocError> {
        self.rows = self.rows.saturating_add(1);
        for (offset, size) in [info, abbreviations] {
            self.offsets.u32(offset)?;
            self.sizes.u32(size)?;
        }
        Ok(())
    }

    /// The bytes of the index.
    pub fn bytes(&self) -> Result<Vec<u8>, AllocError> {
        let mut index = Writer::new(self.alloc, Class::Elf64, self.order);
        index.u16(5)?;
        index.u16(0)?;
        index.u32(2)?;
        index.u32(self.rows)?;
        index.u32(self.slots)?;
        index.raw(self.ids.bytes())?;
        index.raw(self.row_numbers.bytes())?;
        for column in COLUMNS {
            index.u32(column)?;
        }
        index.raw(self.offsets.bytes())?;
        index.raw(self.sizes.bytes())?;
        Ok(index.into_bytes())
    }
}

/// A package with all split units that were written, of which the row `row` has the bytes, and the rows before it have
/// none; the slots say which unit is in which row.
pub fn package_of_unit(
    alloc: Global,
    entries: &DebugInfo,
    row: u32,
    slots: &[(u64, u32)],
) -> Result<Vec<u8>, AllocError> {
    let abbreviations = entries.abbreviations()?;
    let mut index = UnitIndex::new(alloc, entries.order());
    for (id, row) in slots {
        index.slot(*id, *row)?;
    }
    for _ in 1..row {
        index.row((0, 0), (0, 0))?;
    }
    index.row(whole(entries.info()), whole(&abbreviations))?;
    let index = index.bytes()?;
    Image::elf64(alloc)
        .in_order(entries.order())
        .section(".debug_abbrev.dwo", BYTES, &abbreviations)?
        .section(".debug_cu_index", BYTES, &index)?
        .section(".debug_info.dwo", BYTES, entries.info())?
        .bytes()
}

// all of a section
fn whole(bytes: &[u8]) -> Extent {
    (0, u32::try_from(bytes.len()).unwrap_or(0))
}
