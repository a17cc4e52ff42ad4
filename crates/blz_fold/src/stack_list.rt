//! Stacks of addresses with counts.
use blz_program::Listed;

/// Addresses, the outermost first.
pub type Addresses = Listed<u64>;

/// A stack of addresses, and how often it was met.
#[derive(Drop)]
pub struct Stack {
    /// How often it was met.
    pub count: u64,
    /// Its addresses, the outermost first.
    pub addresses: Addresses,
}

/// Stacks in their order.
pub type Stacks = Listed<Stack>;
