//! Listings of an image: the lines that have code, and the addresses of names.
#![tactic(auto)]

mod addresses;
mod find;
mod find_texts;
mod gather;
mod kept_infos;
pub mod laws;
mod lines;
mod listing;
mod place_table;
mod question;
mod running;
mod sought;
mod texts;
mod wanted;
mod words;

pub use find::{blz_find, run_find};
pub use lines::{blz_lines, run_lines};
