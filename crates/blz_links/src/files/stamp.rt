//! What tells one state of a file from another.

/// A file's length in bytes and its time of change.
#[derive(Clone, Copy, Debug, PartialEq, Eq)]
pub struct Stamp {
    /// The length in bytes.
    pub size: u64,
    /// When the file changed last.
    pub changed: u64,
}
