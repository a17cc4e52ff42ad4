//! What units announce, and which units announce an address.

pub(crate) mod address_sets;
pub(crate) mod announcers;
pub(crate) mod announcing;
pub mod units_at;
