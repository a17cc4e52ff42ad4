//! Which entries a walk passes over.
ghost use Rattle.std.specs.Prelude.{◌≡◌};
ghost use Rattle.blz_info.specs.Passing.{is_leaf, is_passed};

/// Entries that are passed over without being looked at.
#[derive(Clone, Copy)]
pub enum Passing {
    /// Those of other tags than one, and zeros.
    Others,
    /// Those of other tags that have no children.
    Leaves,
    /// Those of other tags, zeros, and those that cover no address and refer to no entry, as declarations do.
    Unplaced,
}

impl Passing {
    /// Whether an entry of a tag is passed over, where a tag is sought.
    #[inline(always)]
    pub(crate) fn takes(self, sought: u64, tag: u64, leaf: bool, placing: bool) -> bool
        ensures { result ≡ is_passed self sought tag leaf placing }
    {
        if tag == sought {
            return match self {
                Passing::Unplaced => !placing,
                Passing::Others | Passing::Leaves => false,
            };
        }
        // most have no children
        leaf || match self {
            Passing::Leaves => false,
            Passing::Others | Passing::Unplaced => true,
        }
    }
}
