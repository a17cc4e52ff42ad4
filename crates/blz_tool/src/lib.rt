//! Answers for addresses of an ELF file, as a program.
#![tactic(auto)]

mod command_line;
mod demo;
mod demo_file;
mod fields;
pub mod laws;
mod plain_words;
mod program;
mod request;
mod tally;
mod text;

pub use demo_file::demo_image;
pub use program::{blz_tool, run};
