//! Tests of small ELF images, with answers that are known by hand. No crate of the product stands on it.
#![tactic(auto)]

#[cfg(test)]
mod tests;
