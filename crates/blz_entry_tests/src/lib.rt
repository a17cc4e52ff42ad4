//! Tests of small sections with entries, in the values of the standard. No crate of the product stands on it.
#![tactic(auto)]

#[cfg(test)]
mod tests;
