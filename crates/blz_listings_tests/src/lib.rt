//! Tests of listings over whole images. No crate of the product stands on it.
#![tactic(auto)]

#[cfg(test)]
mod tests;
