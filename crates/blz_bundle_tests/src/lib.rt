//! Tests of opening a path and its companions. No crate of the product stands on it.
#![tactic(auto)]

#[cfg(test)]
mod tests;
