//! The links of an ELF image to its debug files, and the files to which they lead.
#![tactic(auto)]

mod candidate_paths;
mod checksum;
mod checksum_tables;
mod debug_file_iter;
pub mod files;
mod path_pieces;
mod paths;
mod recorded;
mod search;

pub use checksum::debug_link_crc32;
pub use debug_file_iter::DebugFileIter;
pub use files::{Files, FilesFault, MemoryFiles, Stamp};
pub use paths::{join, parent, same_components, set_file_name};
pub use recorded::build_id::read_build_id;
pub use recorded::debug_altlink::{DebugAltlink, parse_debug_altlink};
pub use recorded::debug_link::{DebugLink, parse_debug_link};
pub use recorded::debug_sup::{DebugSupInfo, parse_debug_sup};
pub use recorded::link_reading::{read_debug_altlink, read_debug_link, read_debug_sup};
