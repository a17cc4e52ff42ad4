//! What an image records of its debug files: links, and its build id.

pub mod build_id;
pub mod debug_altlink;
pub mod debug_link;
pub mod debug_sup;
pub mod link_reading;
pub mod link_section;
pub mod notes;
pub mod refusal;
