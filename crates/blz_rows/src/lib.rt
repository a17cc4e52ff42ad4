//! The addresses at which the code of a source line begins, and the next line that has code.
#![tactic(auto)]

mod asked;
mod found;
mod gather;
mod judged;
pub mod laws;
mod least;
mod paths;
mod places;
mod program;
mod questions;
mod text;
mod verdict;
mod words;

pub use places::{Place, Places};
pub use program::{blz_rows, run_rows};
pub use questions::{next_line, rows_of};
