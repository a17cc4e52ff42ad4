//! Tests of the program's runs. No crate of the product stands on it.
#![tactic(auto)]

#[cfg(test)]
mod tests;
