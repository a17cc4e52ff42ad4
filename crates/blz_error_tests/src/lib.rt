//! Tests of errors: their texts, their chains and their kinds. No crate of the product stands on it.
#![tactic(auto)]

#[cfg(test)]
mod tests;
