//! A line of a source with its count.
use blz_bytes::DirPath;

/// A line of a source, and what is left of the counts at its addresses.
#[derive(Drop)]
pub struct CoverLine<'b> {
    /// The directory of the file, as the first address that was counted here has it.
    pub dir: DirPath<'b>,
    /// The file, likewise.
    pub file: &'b [u8],
    /// The line, counted from 1: counts of addresses without a line are in the rest.
    pub line: u32,
    /// What is left of the counts.
    pub count: u64,
}
