//! Tests of links to debug files, checksums, build ids, paths and candidates. No crate of the product stands on it.
#![tactic(auto)]

#[cfg(test)]
mod tests;
