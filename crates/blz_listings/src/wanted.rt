//! What is wanted of the rows of an image.

/// What is wanted of the rows of an image.
#[derive(Clone, Copy, Debug, PartialEq, Eq)]
pub enum Wanted {
    /// The places that have rows, each with the number of its rows.
    Places,
    /// The rows themselves.
    Entries,
}
