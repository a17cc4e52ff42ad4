//! Tests of records, readers of bytes, orders, maps and paths. No crate of the product stands on it.
#![tactic(auto)]

#[cfg(test)]
mod tests;
