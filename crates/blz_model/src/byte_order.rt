//! The order of the bytes of a number.

/// Which byte of a number comes first (ELF gABI, Data Encoding).
#[derive(Clone, Copy, Debug, PartialEq, Eq)]
pub enum ByteOrder {
    /// The least byte first.
    Little,
    /// The greatest byte first.
    Big,
}
