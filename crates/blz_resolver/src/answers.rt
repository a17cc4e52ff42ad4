//! The answer of an address, with its places in the sources.

pub mod answering;
pub mod book_reader;
pub mod call_places;
pub mod code_info;
pub mod prepared;
