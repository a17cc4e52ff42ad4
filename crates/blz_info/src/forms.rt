//! What each form of an attribute reads (DWARF 5 sections 7.5.5 and 7.5.6).

pub mod behind;
pub mod field;
pub mod form;
pub mod value;
