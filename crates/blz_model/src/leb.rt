//! A LEB128 number before its sign is known to count (DWARF 5 section 7.6).

/// The seven-bit groups of a LEB128 number as one value, its weight (two to the number of bits read) and the sign bit
/// of its last byte.
#[derive(Clone, Copy)]
pub struct Leb {
    pub value: u128,
    pub weight: u128,
    pub negative: bool,
}
