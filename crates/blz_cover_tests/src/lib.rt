//! Tests of the line coverage, over its public calls.
#![tactic(auto)]

#[cfg(test)]
mod covered;
#[cfg(test)]
mod one_line;
#[cfg(test)]
mod runs;
