//! The package of split debug information.
ghost use Rattle.std.specs.Option.{option_map};
ghost use Rattle.blz_bundle.specs.FileAnswers.{Finds};
ghost use Rattle.blz_bundle.specs.Opened.{Found};
ghost use Rattle.blz_bundle.specs.Outcomes.{Concludes, FilesStay};
ghost use Rattle.blz_bundle.specs.OwnedViews.{file_at};
ghost use Rattle.blz_bundle.specs.Packages.{package_of};
ghost use Rattle.blz_links.specs.Counts.{Rose};

use crate::open_file::OpenFile;
use blz_error::Result;
use blz_links::{Files, FilesFault};
use std::alloc::Global;

/// The package of an image, which lies beside it under its path with `.dwp` behind it (DWARF 5 section 7.3.5). None where
/// nothing is there.
pub fn find_package<F: Files>(
    alloc: Global,
    files: &mut F,
    main: &OpenFile,
) -> Result<Option<OpenFile>>
    ensures value { Concludes (option_map file_at) result
        (Rose (F.faults files.old) (F.faults files.new))
        (Finds (F.contents files.old) (λ answers. Found (package_of answers (file_at main.now)))) }
    ensures stay { FilesStay F.contents F.stamps F.faults files.old files.new }
{
    let mut path = String::from_str(alloc, &main.path)?;
    path.push_str(".dwp")?;
    match files.read(alloc, &path) {
        Ok(image) => Ok(Some(OpenFile { path, image })),
        Err(FilesFault::NotFound) => Ok(None),
        Err(fault) => Err(fault.into()),
    }
}
