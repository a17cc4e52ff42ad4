//! Listings that are asked of whole images.

mod find;
mod images;
mod lines;
