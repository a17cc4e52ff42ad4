//! A decoded part, as it is kept.
use blz_error::ErrorKind;

/// Nothing yet, the part as places and numbers, or the kind of its mark.
#[derive(Drop)]
pub enum Cache<T> {
    /// Nothing is kept yet.
    Empty,
    /// The decoded part.
    Value(T),
    /// The kind of what is broken.
    Mark(ErrorKind),
}
