//! The symbols of an ELF image: the one of an address, those of a name, and the orders in which they are searched.
#![tactic(auto)]

pub mod name_order;
pub mod names;
mod needed;
pub mod question;
mod scan;
pub mod sorted;
pub mod table;
