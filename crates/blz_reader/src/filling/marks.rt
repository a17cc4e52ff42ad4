//! The mark that is kept of a part that could not be read.
ghost use Rattle.std.specs.Prelude.{◌≡◌, ◌≢◌, IfOk};

use blz_error::{Error, ErrorKind};
use std::alloc::AllocError;

/// The kind of an error, to be kept as a mark. Want of memory is never kept: the next call may find more.
pub fn mark_of(e: &Error) -> Result<ErrorKind, AllocError>
    ensures { IfOk result (λ kind. (kind ≡ e.now.kind) × (kind ≢ ErrorKind.OutOfMemory)) }
{
    match e.kind() {
        ErrorKind::OutOfMemory => Err(AllocError),
        kind => Ok(kind),
    }
}
