//! Symbols, names, segments and sections of small images, with the answers that the rules give by hand.

mod answers;
mod found;
mod listings;
mod orders;
mod records;
mod refusals;
mod relocations;
