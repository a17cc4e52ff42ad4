//! The shared vocabulary of all definitions: parts and marks, numbers, texts and LEB numbers in bytes, lists that end
//! in the bytes, what a cache keeps, and the few types that they speak of.
#![tactic(auto)]

mod byte_order;
mod cache;
mod leb;
mod reason;
mod src_lang;

pub use byte_order::ByteOrder;
pub use cache::Cache;
pub use leb::Leb;
pub use reason::Reason;
pub use src_lang::SrcLang;
