//! What a program is called, and how it is used.

/// The texts by which a program speaks of itself.
#[derive(Clone, Copy, Debug)]
pub struct Program {
    /// Its name, which stands in front of its refusals.
    pub name: &'static str,
    /// The form of its words, which follows `usage: `.
    pub usage: &'static str,
    /// What it says of a line that is not of its form.
    pub bad_line: &'static str,
}
