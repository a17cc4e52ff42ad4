//! Reading a file whole.
ghost use Rattle.std.specs.Prelude.{◌≡◌, ◌⊎◌, Some, IfOk, IfErr};
ghost use Rattle.blz_resolver.specs.Counts.{Rose};
ghost use Rattle.blz_resolver.specs.Outcomes.{FilesStay, HasKindCause};
ghost use Rattle.blz_program.specs.Reading.{FindsNothing, Holds};

use blz_error::{ErrorKind, Result};
use blz_resolver::files::Files;
use std::alloc::Global;

/// The bytes of the file at a path. NotFound where the path names nothing; PermissionDenied and Other come from the files.
pub fn read_file<F: Files>(alloc: Global, files: &mut F, path: &str) -> Result<Vec<u8>>
    ensures good { IfOk result (λ v. Holds (F.contents files.old) path.now (Some v.items)) }
    ensures mark { IfErr result (λ e. (e.kind ≡ ErrorKind.OutOfMemory)
        ⊎ HasKindCause e.kind (Rose (F.faults files.old) (F.faults files.new))
        (FindsNothing (F.contents files.old) path.now e.kind)) }
    ensures stay { FilesStay F.contents F.stamps F.faults files.old files.new }
{
    let bytes = files.read(alloc, path)?;
    Ok(bytes)
}
