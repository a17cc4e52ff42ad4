//! What a program is run by.

/// The fields of a header that the opcodes of its program are read and run by (DWARF 5 section 6.2.4).
#[derive(Clone, Copy)]
pub struct Rules {
    pub version: u16,
    pub address_size: u8,
    pub min_length: u8,
    pub max_ops: u8,
    pub line_base: i8,
    pub line_range: u8,
    pub opcode_base: u8,
}
