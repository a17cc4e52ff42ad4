//! Rows that were found.
use crate::places::Place;

/// A row that was asked: its line and its addresses.
#[derive(Clone, Copy)]
pub struct FoundRow {
    pub line: u32,
    pub place: Place,
}
