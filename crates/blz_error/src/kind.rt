//! The kinds of an error and their texts.
ghost use Rattle.std.specs.Prelude.{◌≡◌, ◌++◌, ◌∷◌, [], Some};
ghost use Rattle.blz_error.specs.Kinds.{kind_text};

use std::fmt;

/// What went wrong.
#[derive(Clone, Copy, Debug, PartialEq, Eq)]
pub enum ErrorKind {
    /// Something that was asked for is not there.
    NotFound,
    /// The operation is not permitted.
    PermissionDenied,
    /// Something that was to be made is there already.
    AlreadyExists,
    /// The operation would have to wait.
    WouldBlock,
    /// A parameter, or an index or offset in a file, leads nowhere.
    InvalidInput,
    /// A file breaks its format.
    InvalidData,
    /// Debug information breaks the DWARF standard.
    InvalidDwarf,
    /// The operation took too long.
    TimedOut,
    /// A write took nothing.
    WriteZero,
    /// A form that is known and not read.
    Unsupported,
    /// The input ended early.
    UnexpectedEof,
    /// There was no memory.
    OutOfMemory,
    /// Any other failure.
    Other,
}

impl ErrorKind {
    /// The kind's text and a zero byte.
    pub fn as_bytes(&self) -> &'static [u8]
        ensures { result.now ≡ kind_text self.now ++ 0 ∷ [] }
    {
        match self {
            ErrorKind::NotFound => b"entity not found\0",
            ErrorKind::PermissionDenied => b"permission denied\0",
            ErrorKind::AlreadyExists => b"entity already exists\0",
            ErrorKind::WouldBlock => b"operation would block\0",
            ErrorKind::InvalidInput => b"invalid input parameter\0",
            ErrorKind::InvalidData => b"invalid data\0",
            ErrorKind::InvalidDwarf => b"DWARF data invalid\0",
            ErrorKind::TimedOut => b"timed out\0",
            ErrorKind::WriteZero => b"write zero\0",
            ErrorKind::Unsupported => b"unsupported\0",
            ErrorKind::UnexpectedEof => b"unexpected end of file\0",
            ErrorKind::OutOfMemory => b"out of memory\0",
            ErrorKind::Other => b"other error\0",
        }
    }

    /// The kind's text.
    pub fn as_text(&self) -> &'static str
        ensures { result.now ≡ kind_text self.now }
    {
        match self {
            ErrorKind::NotFound => "entity not found",
            ErrorKind::PermissionDenied => "permission denied",
            ErrorKind::AlreadyExists => "entity already exists",
            ErrorKind::WouldBlock => "operation would block",
            ErrorKind::InvalidInput => "invalid input parameter",
            ErrorKind::InvalidData => "invalid data",
            ErrorKind::InvalidDwarf => "DWARF data invalid",
            ErrorKind::TimedOut => "timed out",
            ErrorKind::WriteZero => "write zero",
            ErrorKind::Unsupported => "unsupported",
            ErrorKind::UnexpectedEof => "unexpected end of file",
            ErrorKind::OutOfMemory => "out of memory",
            ErrorKind::Other => "other error",
        }
    }
}

impl fmt::Display for ErrorKind {
    ghost output = { λ k. Some (kind_text k) };

    fn fmt<W: fmt::Write>(&self, f: &mut fmt::Formatter<W>) -> fmt::Result {
        f.write_str(self.as_text())
    }
}
