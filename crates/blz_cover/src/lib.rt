//! Counts by address, kept as counts by source line.
#![tactic(auto)]

mod change;
mod change_list;
mod counting;
mod cover;
mod cover_line;
mod fault;
mod hit;
mod homes;
mod line_table;
mod program;
mod source_line;
mod tally;
mod text;

pub use change::{Change, Way};
pub use cover::Cover;
pub use cover_line::CoverLine;
pub use fault::CoverFault;
pub use program::{blz_cover, run_cover};
