//! The steps of a search for the file of a link (GNU debug links, Separate Debug Files).
ghost use Rattle.std.specs.Prelude.{◌≡◌, ◌<◌, length, drop, string_bytes, IfOk, IfSome};
ghost use Rattle.blz_links.specs.Candidates.{is_other};

use crate::candidate_paths::{build_id_path, inner_path};
use crate::paths::{join, parent, same_components, set_file_name};
use std::alloc::{AllocError, Global};

/// What is looked for, and from where.
#[derive(Clone, Copy)]
pub struct SearchedLink<'p> {
    pub dirs: &'p [String],
    pub linker: Option<&'p str>,
    pub linkee: &'p str,
    pub build_id: Option<&'p [u8]>,
}

/// Where a search goes on.
#[derive(Drop)]
pub enum Stage {
    /// By the build id, from the directory at an index on.
    BuildId(usize),
    /// By the name, from the directory at an index on.
    Directory(usize),
    /// Beside the linker.
    Beside,
    /// Below the directory at an index, in a path.
    Below(usize, String),
    /// Nowhere.
    Ended,
}

/// A path, and where the search goes on after it.
#[derive(Drop)]
pub struct Found {
    pub path: String,
    pub then: Stage,
}

impl<'p> SearchedLink<'p> {
    ghost use Rattle.blz_links.specs.Stages.{Finds, FindsOther, after_path, below_from, dirs_of, inner_of, linker_of, paths_at};
    ghost use Rattle.blz_links.specs.declared.search.Stage.{Stage};
    ghost use Rattle.blz_links.specs.declared.search.Stage.TheVariants.{BuildId, Directory, Beside, Below};

    // whether a path is not the linker
    fn is_other(&self, path: &str) -> bool
        ensures { result ≡ is_other (linker_of self.now) path.now }
    {
        match self.linker {
            Some(linker) => !same_components(path, linker),
            None => true,
        }
    }

    fn by_build_id(&self, alloc: Global, index: usize) -> Result<Option<Found>, AllocError>
        ensures { IfOk result (Finds self.now (BuildId index)) }
    {
        let Some(id) = self.build_id else {
            return self.by_name(alloc, 0);
        };
        if id.len() < 8 {
            return self.by_name(alloc, 0);
        }
        let Some(dir) = self.dirs.get(index) else {
            return self.by_name(alloc, 0);
        };
        let path = build_id_path(alloc, id)?;
        Ok(Some(Found {
            path: join(alloc, dir.as_str(), path.as_str())?,
            then: Stage::BuildId(index + 1),
        }))
    }

    fn by_name(&self, alloc: Global, index: usize) -> Result<Option<Found>, AllocError>
        ensures { IfOk result (Finds self.now (Directory index)) }
    {
        let Some(dir) = self.dirs.get(index) else {
            return self.beside(alloc);
        };
        Ok(Some(Found {
            path: join(alloc, dir.as_str(), self.linkee)?,
            then: Stage::Directory(index + 1),
        }))
    }

    fn beside(&self, alloc: Global) -> Result<Option<Found>, AllocError>
        ensures { IfOk result (Finds self.now Beside) }
    {
        let Some(linker) = self.linker else {
            return Ok(None);
        };
        let path = set_file_name(alloc, linker, self.linkee)?;
        let inner = inner_path(alloc, path.as_str())?;
        Ok(Some(Found {
            path,
            then: Stage::Below(0, inner),
        }))
    }

    // the path of the linker's directory
    fn inner(&self, alloc: Global) -> Result<String, AllocError>
        ensures { IfOk result
            (λ path. string_bytes path ≡ inner_of self.now (linker_of self.now)) }
    {
        let Some(linker) = self.linker else {
            return Ok(String::new(alloc));
        };
        let path = set_file_name(alloc, linker, self.linkee)?;
        inner_path(alloc, path.as_str())
    }

    // where to go on below the directory at an index, after a path
    fn above(&self, alloc: Global, index: usize, path: &str) -> Result<Stage, AllocError>
        requires { index < length self.now.dirs.now }
        ensures { IfOk result
            (λ stage. paths_at self.now stage ≡ after_path self.now index path.now) }
    {
        let Some(above) = parent(path) else {
            return Ok(Stage::Below(index + 1, self.inner(alloc)?));
        };
        if above.is_empty() {
            return Ok(Stage::Below(index + 1, self.inner(alloc)?));
        }
        Ok(Stage::Below(index, String::from_str(alloc, above)?))
    }

    fn below(&self, alloc: Global, index: usize, path: &str) -> Result<Option<Found>, AllocError>
        ensures { IfOk result (λ found. (stage : Stage)
            → paths_at self.now stage
            ≡ below_from (drop index (dirs_of self.now)) path.now
            (inner_of self.now (linker_of self.now)) self.now.linkee.now
            → Finds self.now stage found) }
    {
        let Some(dir) = self.dirs.get(index) else {
            return Ok(None);
        };
        let place = join(alloc, dir.as_str(), path)?;
        Ok(Some(Found {
            path: join(alloc, place.as_str(), self.linkee)?,
            then: self.above(alloc, index, path)?,
        }))
    }

    // one path, the linker too
    fn next_path(&self, alloc: Global, stage: Stage) -> Result<Option<Found>, AllocError>
        ensures { IfOk result (Finds self.now stage) }
    {
        match stage {
            Stage::BuildId(index) => self.by_build_id(alloc, index),
            Stage::Directory(index) => self.by_name(alloc, index),
            Stage::Beside => self.beside(alloc),
            Stage::Below(index, path) => self.below(alloc, index, path.as_str()),
            Stage::Ended => Ok(None),
        }
    }

    /// The next path that is not the linker, and where the search goes on.
    pub fn next_other(&self, alloc: Global, stage: Stage) -> Result<Option<Found>, AllocError>
        ensures found { IfOk result (FindsOther self.now stage) }
        ensures fewer { IfOk result (λ found. IfSome found
            (λ f. length (paths_at self.now f.then) < length (paths_at self.now stage))) }
    {
        let mut stage = stage;
        loop {
            let Some(found) = self.next_path(alloc, stage)? else {
                return Ok(None);
            };
            if self.is_other(found.path.as_str()) {
                return Ok(Some(found));
            }
            stage = found.then;
        }
    }
}
