//! Small units that are asked by public calls.

mod entries;
mod lines;
mod listed;
mod ranges;
mod small;
