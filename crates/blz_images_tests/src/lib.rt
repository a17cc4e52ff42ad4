//! Tests of the images for tests. No crate of the product stands on it.
#![tactic(auto)]

#[cfg(test)]
mod tests;
