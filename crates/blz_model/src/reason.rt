//! Why an address has no symbol.

/// Why no symbol is answered.
#[derive(Clone, Copy, Debug, PartialEq, Eq)]
pub enum Reason {
    /// The image has no symbols at all.
    MissingSyms,
    /// None of the symbols covers the address.
    UnknownAddr,
}
