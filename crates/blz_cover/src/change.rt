//! What is counted.
ghost use Rattle.std.specs.Prelude.{◌≡◌};
ghost use Rattle.blz_cover.specs.Changes.{added, taken};

/// Which way a count goes.
#[derive(Clone, Copy, Debug, PartialEq, Eq)]
pub enum Way {
    /// It was added.
    Added,
    /// It was taken away again.
    Taken,
}

/// A count at an address, which was added or taken away.
#[derive(Clone, Copy, Debug, PartialEq, Eq)]
pub struct Change {
    /// The address.
    pub addr: u64,
    /// How many.
    pub count: u64,
    /// Whether they were added or taken away.
    pub way: Way,
}

impl Change {
    /// A count that was added.
    pub fn added(addr: u64, count: u64) -> Change
        ensures { result ≡ added addr count }
    {
        Change {
            addr,
            count,
            way: Way::Added,
        }
    }

    /// A count that was taken away again.
    pub fn taken(addr: u64, count: u64) -> Change
        ensures { result ≡ taken addr count }
    {
        Change {
            addr,
            count,
            way: Way::Taken,
        }
    }
}
