//! Opening a path.
ghost use Rattle.std.specs.Prelude.{map, string_bytes};
ghost use Rattle.blz_bundle.specs.Opening.{IsOpened, default_dirs};
ghost use Rattle.blz_bundle.specs.Outcomes.{FilesStay};
ghost use Rattle.blz_links.specs.Counts.{Rose};

use crate::ElfResolver;
use blz_bundle::OwnedBundle;
use blz_error::Result;
use blz_links::Files;
use std::alloc::Global;

impl<'b> ElfResolver<'b> {
    /// Opens a path with the debug files of `/usr/lib/debug` and `/lib/debug/`, as `open_with_debug_dirs` does.
    pub fn open<F: Files>(alloc: Global, files: &mut F, path: &str) -> Result<OwnedBundle>
        ensures opened { IsOpened (F.contents files.old) path.now default_dirs
            (Rose (F.faults files.old) (F.faults files.new)) result }
        ensures stay { FilesStay F.contents F.stamps F.faults files.old files.new }
    {
        OwnedBundle::open(alloc, files, path)
    }

    /// Reads the file at a path, the debug file to which its link leads, its package, and the file that the debug file
    /// shares with others (GNU debug links; DWARF 5 sections 7.3.5 and 7.3.6). Each module is named by its path. NotFound
    /// where the path names nothing; PermissionDenied and Other where the files fail; InvalidData and Unsupported where a
    /// link section is broken or compressed; InvalidData where a file is not the one that its link means, with what it has
    /// and what was recorded.
    pub fn open_with_debug_dirs<F: Files>(
        alloc: Global,
        files: &mut F,
        path: &str,
        debug_dirs: &[String],
    ) -> Result<OwnedBundle>
        ensures opened { IsOpened (F.contents files.old) path.now (map string_bytes debug_dirs.now)
            (Rose (F.faults files.old) (F.faults files.new)) result }
        ensures stay { FilesStay F.contents F.stamps F.faults files.old files.new }
    {
        OwnedBundle::open_with_debug_dirs(alloc, files, path, debug_dirs)
    }
}
