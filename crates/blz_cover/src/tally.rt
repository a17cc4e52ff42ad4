//! What is kept of an address.

/// Where the counts of an address go.
#[derive(Clone, Copy)]
pub enum Home {
    /// To the line of an index.
    Line(usize),
    /// To the rest.
    Rest,
}

/// What is left of an address, and where it counts.
#[derive(Clone, Copy)]
pub struct Tally {
    pub count: u64,
    pub home: Home,
}
