//! The addresses of rows.
use blz_program::Listed;

/// The addresses that a row speaks of (DWARF 5 section 6.2).
#[derive(Clone, Copy, Debug, PartialEq, Eq)]
pub struct Place {
    /// The first address.
    pub address: u64,
    /// The address behind the last: that of the next row, or the end of the sequence.
    pub end: u64,
}

/// A list of places.
pub type Places = Listed<Place>;
