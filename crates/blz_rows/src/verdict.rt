//! What a file of a unit is to the name that is asked.

/// What the file of a number is.
#[derive(Clone, Copy, Debug, PartialEq, Eq)]
pub enum Verdict {
    /// There is no such file.
    Absent,
    /// Its path is another.
    Other,
    /// Its path is the name, or ends in `/` and the name.
    Meant,
}
