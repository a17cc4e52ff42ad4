//! Tests of the stack folder, over its public calls.
#![tactic(auto)]

#[cfg(test)]
mod folded;
#[cfg(test)]
mod parsed;
#[cfg(test)]
mod runs;
