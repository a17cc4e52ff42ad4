//! What is asked of a symbol's name.
use blz_records::SymType;

/// Which symbols are listed, and what of them.
#[derive(Clone, Copy, Default)]
pub struct FindAddrOpts {
    /// Whether the place in the file is asked.
    pub file_offset: bool,
    /// Which symbols are asked for.
    pub sym_type: SymType,
}
