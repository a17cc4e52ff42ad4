//! Tests of the functions, inlined calls and lines of small units. No crate of the product stands on it.
#![tactic(auto)]

#[cfg(test)]
mod tests;
