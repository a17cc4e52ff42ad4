//! Opening a path.
ghost use Rattle.std.specs.Prelude.{◌≡◌, map, string_bytes};
ghost use Rattle.std.specs.Option.{option_map};
ghost use Rattle.blz_bundle.specs.FileAnswers.{StepsFind};
ghost use Rattle.blz_bundle.specs.OpenFiles.{debug_of};
ghost use Rattle.blz_bundle.specs.Opening.{IsOpened, OpensTo, default_dirs, shared};
ghost use Rattle.blz_bundle.specs.Outcomes.{Concludes, FilesStay};
ghost use Rattle.blz_bundle.specs.OwnedViews.{file_at};
ghost use Rattle.blz_links.specs.Counts.{Rose};

use crate::OwnedBundle;
use crate::alternative::find_alternative;
use crate::linked::find_linkee;
use crate::open_file::OpenFile;
use crate::package::find_package;
use crate::supplementary::find_supplementary;
use blz_error::Result;
use blz_links::Files;
use std::alloc::Global;

impl OwnedBundle {
    /// Opens a path with the debug files of `/usr/lib/debug` and `/lib/debug/`, as `open_with_debug_dirs` does.
    pub fn open<F: Files>(alloc: Global, files: &mut F, path: &str) -> Result<OwnedBundle>
        ensures opened { IsOpened (F.contents files.old) path.now default_dirs
            (Rose (F.faults files.old) (F.faults files.new)) result }
        ensures stay { FilesStay F.contents F.stamps F.faults files.old files.new }
    {
        let dirs = [
            String::from_str(alloc, "/usr/lib/debug")?,
            String::from_str(alloc, "/lib/debug/")?,
        ];
        OwnedBundle::open_with_debug_dirs(alloc, files, path, &dirs)
    }

    /// Reads the file at a path, the debug file to which its link leads, its package, and the file that the debug file
    /// shares with others (GNU debug links; DWARF 5 sections 7.3.5 and 7.3.6). Each module is named by its path. NotFound
    /// where the path names nothing; PermissionDenied and Other where the files fail; InvalidData and Unsupported where a
    /// link section is broken or compressed; InvalidData where a file is not the one that its link means, with what it has
    /// and what was recorded.
    pub fn open_with_debug_dirs<F: Files>(
        alloc: Global,
        files: &mut F,
        path: &str,
        debug_dirs: &[String],
    ) -> Result<OwnedBundle>
        ensures opened { IsOpened (F.contents files.old) path.now (map string_bytes debug_dirs.now)
            (Rose (F.faults files.old) (F.faults files.new)) result }
        ensures stay { FilesStay F.contents F.stamps F.faults files.old files.new }
    {
        open_companions(alloc, files, path, debug_dirs)
    }
}

// Opens the file at a path and its companions.
fn open_companions<F: Files>(
    alloc: Global,
    files: &mut F,
    path: &str,
    dirs: &[String],
) -> Result<OwnedBundle>
    ensures value { Concludes (λ b. b) result (Rose (F.faults files.old) (F.faults files.new))
        (OpensTo (F.contents files.old) path.now (map string_bytes dirs.now)) }
    ensures stay { FilesStay F.contents F.stamps F.faults files.old files.new }
{
    let path = String::from_str(alloc, path)?;
    let main = OpenFile::read(alloc, files, path)?;
    let linkee = find_linkee(alloc, files, dirs, &main)?;
    let package = find_package(alloc, files, &main)?;
    let supplementary = find_shared(alloc, files, dirs, debug_file(&main, &linkee))?;
    Ok(OwnedBundle::with_companions(main, linkee, supplementary, package))
}

fn debug_file<'f>(main: &'f OpenFile, linkee: &'f Option<OpenFile>) -> &'f OpenFile
    ensures { file_at result.now ≡ debug_of (file_at main.now) (option_map file_at linkee.now) }
{
    match linkee {
        Some(linkee) => linkee,
        None => main,
    }
}

// The file that the debug file shares with others.
fn find_shared<F: Files>(
    alloc: Global,
    files: &mut F,
    dirs: &[String],
    debug: &OpenFile,
) -> Result<Option<OpenFile>>
    ensures value { Concludes (option_map file_at) result
        (Rose (F.faults files.old) (F.faults files.new)) (StepsFind (F.contents files.old)
        (λ answers. shared answers (map string_bytes dirs.now) (file_at debug.now))) }
    ensures stay { FilesStay F.contents F.stamps F.faults files.old files.new }
{
    match find_alternative(alloc, files, dirs, debug)? {
        Some(file) => Ok(Some(file)),
        None => find_supplementary(alloc, files, dirs, debug),
    }
}
