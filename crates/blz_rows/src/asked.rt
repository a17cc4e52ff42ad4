//! What a question asks of the rows.
ghost use Rattle.std.specs.Prelude.{◌≡◌};
ghost use Rattle.blz_rows.specs.Asking.{asks};

/// The lines that are asked.
#[derive(Clone, Copy, Debug, PartialEq, Eq)]
pub enum AskedLines {
    /// This line alone.
    At(u32),
    /// This line, and all behind it.
    From(u32),
}

impl AskedLines {
    /// Whether a line is one of them.
    pub fn has(self, line: u32) -> bool
        ensures { result ≡ asks self line }
    {
        match self {
            AskedLines::At(asked) => line == asked,
            AskedLines::From(first) => first <= line,
        }
    }
}

/// The rows that are asked: some lines of the files that a name means.
#[derive(Clone, Copy)]
pub struct Asked<'f> {
    /// The name of the file, which need not have all its directories.
    pub file: &'f [u8],
    /// The lines.
    pub lines: AskedLines,
}
