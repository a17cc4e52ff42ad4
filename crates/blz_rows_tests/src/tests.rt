//! Lines of source files that are asked of whole images.

mod images;
mod lines;
mod places;
mod runs;
mod words;
