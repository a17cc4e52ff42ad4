//! What the answers of a bundle with debug information are read from.

use blz_bundle::Bundle;
use blz_index::Dwarf;

/// A bundle, and its files as units are read from them. The units stand beside it, since they keep what was read.
#[derive(Clone, Copy)]
pub(crate) struct BookReader<'s, 'b> {
    pub bundle: Bundle<'b>,
    pub dwarf: Dwarf<'s, 'b>,
}
