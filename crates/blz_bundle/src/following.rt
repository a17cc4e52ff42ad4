//! The file to which a link leads.
ghost use Rattle.std.specs.Prelude.{◌≡◌, find, map, string_bytes};
ghost use Rattle.std.specs.Option.{option_map};
ghost use Rattle.blz_bundle.specs.FileAnswers.{Finds};
ghost use Rattle.blz_bundle.specs.Following.{followed};
ghost use Rattle.blz_bundle.specs.Opened.{Found};
ghost use Rattle.blz_bundle.specs.Outcomes.{Concludes, FilesStay};
ghost use Rattle.blz_bundle.specs.OwnedViews.{file_at};
ghost use Rattle.blz_links.specs.Counts.{Rose};
ghost use Rattle.blz_links.specs.Searches.{left_of};

use crate::open_file::OpenFile;
use blz_error::Result;
use blz_links::{DebugFileIter, Files};
use std::alloc::Global;

// The path by which a file is known; its own where nothing stands there.
fn known_as<F: Files>(alloc: Global, files: &mut F, path: &str) -> Result<String>
    ensures value { Concludes string_bytes result (Rose (F.faults files.old) (F.faults files.new))
        (Finds (F.contents files.old) (λ answers. Found (answers.known_as path.now))) }
    ensures stay { FilesStay F.contents F.stamps F.faults files.old files.new }
{
    match files.canonical(alloc, path)? {
        Some(known) => Ok(known),
        None => Ok(String::from_str(alloc, path)?),
    }
}

// Whether something stands at a path.
fn is_there<F: Files>(files: &mut F, path: &str) -> Result<bool>
    ensures value { Concludes (λ there. there) result
        (Rose (F.faults files.old) (F.faults files.new))
        (Finds (F.contents files.old) (λ answers. Found (answers.is_there path.now))) }
    ensures stay { FilesStay F.contents F.stamps F.faults files.old files.new }
{
    Ok(files.exists(path)?)
}

// The first candidate that is there.
fn first_there<F: Files>(files: &mut F, candidates: DebugFileIter<'_>) -> Result<Option<String>>
    ensures value { Concludes (option_map string_bytes) result
        (Rose (F.faults files.old) (F.faults files.new)) (Finds (F.contents files.old)
        (λ answers. Found (find answers.is_there (left_of candidates.entry)))) }
    ensures stay { FilesStay F.contents F.stamps F.faults files.old files.new }
{
    for candidate in candidates {
        let path = candidate?;
        if is_there(files, &path)? {
            return Ok(Some(path));
        }
    }
    Ok(None)
}

/// Reads the first candidate for the target of a link that is there; None where none is. `from` is the file that has the
/// link, and `build_id` the id by which the target is looked for too.
pub fn follow<F: Files>(
    alloc: Global,
    files: &mut F,
    dirs: &[String],
    from: &OpenFile,
    target: &str,
    build_id: Option<&[u8]>,
) -> Result<Option<OpenFile>>
    ensures value { Concludes (option_map file_at) result
        (Rose (F.faults files.old) (F.faults files.new))
        (Finds (F.contents files.old) (λ answers. followed answers (map string_bytes dirs.now)
        (file_at from.now) target.now (option_map (λ id. id.now) build_id.entry))) }
    ensures stay { FilesStay F.contents F.stamps F.faults files.old files.new }
{
    let linker = known_as(alloc, files, &from.path)?;
    let candidates = DebugFileIter::new(alloc, dirs, Some(linker.as_str()), target, build_id);
    match first_there(files, candidates)? {
        Some(path) => Ok(Some(OpenFile::read(alloc, files, path)?)),
        None => Ok(None),
    }
}
