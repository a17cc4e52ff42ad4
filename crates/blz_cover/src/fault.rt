//! What a change is refused for.
use blz_error::ErrorKind;

/// What a change is refused for.
#[derive(Clone, Copy, Debug, PartialEq, Eq)]
pub enum CoverFault {
    /// The address has a smaller count than is to be taken: this one.
    Missing(u64),
    /// With the count the total would pass 2^64 - 1; it is this one.
    Full(u64),
    /// The debug information is broken where the address is looked up.
    Mark(ErrorKind),
    /// There was no memory.
    Memory,
}
