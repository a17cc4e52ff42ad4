//! Where the program meets the world: the files of the system, and what takes bytes.
mod memory_sink;
mod real_files;
mod real_sink;
mod sink;

pub use memory_sink::MemorySink;
pub use real_files::RealFiles;
pub use real_sink::RealSink;
pub use sink::{Sink, SinkFault};
