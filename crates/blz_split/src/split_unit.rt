//! The pieces of a package that a split unit is read from.

/// A part of a section.
#[derive(Clone, Copy, Debug, PartialEq, Eq)]
pub struct Piece {
    /// Where it begins.
    pub start: usize,
    /// The number of bytes.
    pub len: usize,
}

/// The pieces of a package that belong to a unit (DWARF 5 section 7.3.5.3).
#[derive(Clone, Copy, Debug, PartialEq, Eq)]
pub struct SplitUnit {
    /// of `.debug_info.dwo`
    pub info: Piece,
    /// of `.debug_abbrev.dwo`
    pub abbrev: Piece,
    /// of `.debug_str_offsets.dwo`
    pub str_offsets: Piece,
    /// of `.debug_rnglists.dwo`
    pub rnglists: Piece,
}
