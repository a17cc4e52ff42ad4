//! What the size of a field depends on.
ghost use Rattle.std.specs.Prelude.{◌≡◌};
ghost use Rattle.std.specs.Bool.{OnTrue};

/// The version, the offset size and the address size of a unit or a table (DWARF 5 sections 7.4 and 7.5.1).
#[derive(Clone, Copy)]
pub struct Encoding {
    /// The DWARF version.
    pub version: u16,
    /// Offsets have eight bytes, and else four.
    pub wide: bool,
    /// The bytes of an address.
    pub address_size: u8,
}

impl Encoding {
    #[inline(always)]
    #[tactic(auto, using(crate::proofs::SameEncoding::same_encoding))]
    pub(crate) fn is(self, other: Encoding) -> bool
        ensures { OnTrue result (self ≡ other) }
    {
        if self.version == other.version
            && self.wide == other.wide
            && self.address_size == other.address_size
        {
            return true;
        }
        false
    }
}
