//! The debug information of a bundle.

pub mod debug_data;
pub mod debug_files;
pub mod debug_image;
pub mod debug_info;
pub mod debug_section;
pub mod debug_text;
