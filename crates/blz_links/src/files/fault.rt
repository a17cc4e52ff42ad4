//! Why a call on files fails.
use blz_error::{Error, ErrorKind, Str};
use std::alloc::AllocError;

/// Why a call on files fails.
#[derive(Clone, Copy, Debug, PartialEq, Eq)]
pub enum FilesFault {
    /// The path names nothing.
    NotFound,
    /// The file may not be read.
    Denied,
    /// Any other failure.
    Failed,
    /// There was no memory.
    Memory,
}

impl FilesFault {
    ghost use Rattle.std.specs.Prelude.{◌≡◌};
    ghost use Rattle.blz_links.specs.FilesKinds.{kind_from};

    /// The kind of error that the fault becomes.
    pub fn kind(&self) -> ErrorKind
        ensures { result ≡ kind_from self.now }
    {
        match self {
            FilesFault::NotFound => ErrorKind::NotFound,
            FilesFault::Denied => ErrorKind::PermissionDenied,
            FilesFault::Failed => ErrorKind::Other,
            FilesFault::Memory => ErrorKind::OutOfMemory,
        }
    }
}

impl From<AllocError> for FilesFault {
    ghost use Rattle.std.specs.Prelude.{◌≡◌};
    ghost use Rattle.blz_links.specs.declared.files.fault.FilesFault.TheVariants.{Memory};

    ghost from_gives = { λ _ e. e ≡ Memory };

    fn from(_: AllocError) -> FilesFault {
        FilesFault::Memory
    }
}

impl From<FilesFault> for Error {
    ghost use Rattle.std.specs.Prelude.{◌≡◌};
    ghost use Rattle.blz_links.specs.FilesKinds.{error_from};

    ghost from_gives = { λ fault e. e ≡ error_from fault };

    fn from(fault: FilesFault) -> Error {
        let kind = fault.kind();
        Error::new(kind, Str::fixed(kind.as_text()))
    }
}
