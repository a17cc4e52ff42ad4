//! The names whose addresses are asked.

/// The names whose addresses are asked, and whether their places in the file are; where there is no name, all are listed.
#[derive(Clone, Copy)]
pub struct Sought<'w> {
    pub names: &'w [String],
    pub file_offset: bool,
}
