//! What all the programs share: their words, the texts that they print, and how a run ends.
#![tactic(auto)]

mod ending;
mod lines;
mod listed;
mod outcome;
mod program;
mod reading;
mod system;
mod texts;
mod words;
mod words_given;

pub use ending::{finish, write_all};
pub use lines::first_line;
pub use listed::Listed;
pub use outcome::{LineFault, Outcome};
pub use program::Program;
pub use reading::read_file;
pub use system::run_over;
pub use texts::{push_decimal, push_hex, push_path};
pub use words::{address, number_up_to};
pub use words_given::words_of;
