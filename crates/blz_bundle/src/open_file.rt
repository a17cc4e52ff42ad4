//! A file that was read, by its path.
ghost use Rattle.std.specs.Prelude.{◌≡◌, string_bytes};
ghost use Rattle.blz_bundle.specs.BundleViews.{companion_view};
ghost use Rattle.blz_bundle.specs.FileAnswers.{Finds};
ghost use Rattle.blz_bundle.specs.Following.{read_at};
ghost use Rattle.blz_bundle.specs.OpenFiles.{named};
ghost use Rattle.blz_bundle.specs.Outcomes.{Concludes, FilesStay};
ghost use Rattle.blz_bundle.specs.OwnedViews.{file_at};
ghost use Rattle.blz_links.specs.Counts.{Rose};

use crate::Companion;
use blz_error::Result;
use blz_links::Files;
use std::alloc::Global;

/// A file that was read, by its path.
#[derive(Drop)]
pub struct OpenFile {
    pub path: String,
    pub image: Vec<u8>,
}

impl OpenFile {
    /// Reads the file at a path, which has to be there.
    pub fn read<F: Files>(alloc: Global, files: &mut F, path: String) -> Result<OpenFile>
        ensures value { Concludes file_at result (Rose (F.faults files.old) (F.faults files.new))
            (Finds (F.contents files.old) (λ answers. read_at answers (string_bytes path))) }
        ensures stay { FilesStay F.contents F.stamps F.faults files.old files.new }
    {
        let image = files.read(alloc, &path)?;
        Ok(OpenFile { path, image })
    }

    /// The same file, borrowed, with its path for the name of its module.
    pub fn companion(&self) -> Companion<'_>
        ensures { companion_view result ≡ named (file_at self.now) }
    {
        Companion {
            image: &self.image,
            module: Some(self.path.as_str()),
        }
    }
}
