//! Tables that entries lead to by an index, in 32-bit DWARF with addresses of 64 bits.
use crate::{ByteOrder, Class, Writer};
use std::alloc::{AllocError, Global};

/// Where the offsets of `string_offsets` and the addresses of `address_table` begin.
pub const INDEX_BASE: u32 = 8;

/// Where the offsets of `range_lists` begin.
pub const RANGE_LISTS_BASE: u32 = 12;

/// The bytes of `.debug_str_offsets` (DWARF 5 section 7.26).
pub fn string_offsets(
    alloc: Global,
    order: ByteOrder,
    offsets: &[u32],
) -> Result<Vec<u8>, AllocError> {
    let mut table = Writer::new(alloc, Class::Elf64, order);
    table.u16(5)?;
    table.u16(0)?;
    for offset in offsets {
        table.u32(*offset)?;
    }
    with_length(alloc, order, &table)
}

/// The bytes of `.debug_addr` (DWARF 5 section 7.27).
pub fn address_table(
    alloc: Global,
    order: ByteOrder,
    addresses: &[u64],
) -> Result<Vec<u8>, AllocError> {
    let mut table = Writer::new(alloc, Class::Elf64, order);
    table.u16(5)?;
    table.raw(&[8, 0])?;
    for address in addresses {
        table.u64(*address)?;
    }
    with_length(alloc, order, &table)
}

/// The bytes of `.debug_rnglists`, of lists that stand at these offsets from the base (DWARF 5 section 7.28).
pub fn range_lists(
    alloc: Global,
    order: ByteOrder,
    offsets: &[u32],
    lists: &[u8],
) -> Result<Vec<u8>, AllocError> {
    let mut table = Writer::new(alloc, Class::Elf64, order);
    table.u16(5)?;
    table.raw(&[8, 0])?;
    table.u32(u32::try_from(offsets.len()).unwrap_or(0))?;
    for offset in offsets {
        table.u32(*offset)?;
    }
    table.raw(lists)?;
    with_length(alloc, order, &table)
}

/// The bytes of one list in `.debug_ranges`: pairs of a begin and an end, and the pair of zeros that ends them (DWARF 4
/// section 2.17.3).
pub fn range_pairs(
    alloc: Global,
    order: ByteOrder,
    ranges: &[(u64, u64)],
) -> Result<Vec<u8>, AllocError> {
    let mut list = Writer::new(alloc, Class::Elf64, order);
    for (begin, end) in ranges {
        list.u64(*begin)?;
        list.u64(*end)?;
    }
    list.zeros(16)?;
    Ok(list.into_bytes())
}

/// The bytes of one set in `.debug_aranges`, of the unit at an offset: pairs of an address and a size (DWARF 5 section
/// 6.1.2).
pub fn address_ranges(
    alloc: Global,
    order: ByteOrder,
    unit: u32,
    ranges: &[(u64, u64)],
) -> Result<Vec<u8>, AllocError> {
    let mut set = Writer::new(alloc, Class::Elf64, order);
    set.u16(2)?;
    set.u32(unit)?;
    set.raw(&[8, 0])?;
    // up to a multiple of the size of a pair, counted from the length
    set.zeros(4)?;
    for (address, size) in ranges {
        set.u64(*address)?;
        set.u64(*size)?;
    }
    set.zeros(16)?;
    with_length(alloc, order, &set)
}

fn with_length(alloc: Global, order: ByteOrder, table: &Writer) -> Result<Vec<u8>, AllocError> {
    let mut out = Writer::new(alloc, Class::Elf64, order);
    out.u32(u32::try_from(table.len()).unwrap_or(0))?;
    out.raw(table.bytes())?;
    Ok(out.into_bytes())
}
