//! Small values, read and compared by hand.

mod bytes;
mod records;
