//! Tests of small line number programs. No crate of the product stands on it.
#![tactic(auto)]

#[cfg(test)]
mod tests;
