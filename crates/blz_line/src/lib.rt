//! Line number programs of DWARF 2 to 5: the rows of a unit, the sequences that they form, and the files that they name
//! (DWARF 5 section 6.2).
#![tactic(auto)]

mod broken;
mod files;
mod formats;
mod header;
mod lines;
mod lookup;
mod naming;
mod opcode;
mod paths;
mod program;
mod program_lines;
mod registers;
mod row;
mod rules;
mod table;

pub use header::LineHeader;
pub use lines::{Lines, Location};
pub use program_lines::ProgramLines;
pub use row::{LineRow, LineSequence};
