//! Where files come from.
mod fault;
mod memory_files;
mod source;
mod stamp;

pub use fault::FilesFault;
pub use memory_files::MemoryFiles;
pub use source::Files;
pub use stamp::Stamp;
