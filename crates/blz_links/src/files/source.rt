//! Files by their paths.
ghost use Rattle.std.specs.Prelude.{◌≡◌, ◌≢◌, ℕ, Option, Err};
ghost use Rattle.blz_links.specs.Contents.{Contents, PathMap};
ghost use Rattle.blz_links.specs.FilesAnswers.{AreToldTogether, HasFilesCause, ReadTells, ExistsTells, StampTells, CanonicalTells};
ghost use Rattle.blz_links.specs.declared.files.stamp.Stamp.{Stamp};

use super::{FilesFault, Stamp};
use std::alloc::Global;

/// Files by their paths. What they hold may be told, or not; how often they failed is always told.
pub trait Files {
    /// What the paths hold, where it is told.
    ghost contents: { Self → Option Contents };

    /// The stamps of the same paths, where they are told.
    ghost stamps: { Self → Option (PathMap Stamp) };

    /// How often the files have failed.
    ghost faults: { Self → ℕ };

    /// The bytes of the file at a path.
    fn read(&mut self, alloc: Global, path: &str) -> Result<Vec<u8>, FilesFault>
        ensures told { ReadTells (contents self.old) path.now result }
        ensures contents_stay { contents self.new ≡ contents self.old }
        ensures stamps_stay { stamps self.new ≡ stamps self.old }
        ensures cause { HasFilesCause (faults self.old) (faults self.new) result };

    /// Whether something stands at a path.
    fn exists(&mut self, path: &str) -> Result<bool, FilesFault>
        ensures told { ExistsTells (contents self.old) path.now result }
        ensures contents_stay { contents self.new ≡ contents self.old }
        ensures stamps_stay { stamps self.new ≡ stamps self.old }
        ensures never { (result ≢ Err FilesFault.NotFound) × (result ≢ Err FilesFault.Memory) }
        ensures cause { HasFilesCause (faults self.old) (faults self.new) result };

    /// The path by which a file is known, or None where the path names nothing.
    fn canonical(&mut self, alloc: Global, path: &str) -> Result<Option<String>, FilesFault>
        ensures told { CanonicalTells (contents self.old) path.now result }
        ensures contents_stay { contents self.new ≡ contents self.old }
        ensures stamps_stay { stamps self.new ≡ stamps self.old }
        ensures never { result ≢ Err FilesFault.NotFound }
        ensures cause { HasFilesCause (faults self.old) (faults self.new) result };

    /// What tells the file's present state from another.
    fn stamp(&mut self, path: &str) -> Result<Stamp, FilesFault>
        ensures told { StampTells (stamps self.old) path.now result }
        ensures contents_stay { contents self.new ≡ contents self.old }
        ensures stamps_stay { stamps self.new ≡ stamps self.old }
        ensures never { result ≢ Err FilesFault.Memory }
        ensures cause { HasFilesCause (faults self.old) (faults self.new) result };

    /// Contents and stamps are told both, or neither, and of the same paths.
    ghost told_together: { (files : Self) → AreToldTogether (contents files) (stamps files) };
}
