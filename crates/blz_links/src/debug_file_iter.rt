//! Where the file of a link is looked for (GNU debug links, Separate Debug Files).
ghost use Rattle.std.specs.Prelude.{◌≡◌, map, string_bytes, All};
ghost use Rattle.std.specs.Iterator.{at_most};
ghost use Rattle.std.specs.Option.{option_map};
ghost use Rattle.blz_links.specs.Candidates.{HasOther, candidates};
ghost use Rattle.blz_links.specs.Searches.{Steps, answers_left, left_of};

use crate::search::{SearchedLink, Stage};
use std::alloc::{AllocError, Global};
use std::marker::Model;
use std::mem;

/// The paths at which the file of a link may lie, in the order in which they are to be asked for: with a build id of at
/// least eight bytes below `.build-id` of each directory, then in each directory, beside the linker, and below each
/// directory in the path of the linker's directory and in the paths above it. The linker itself is left out.
#[derive(Drop)]
pub struct DebugFileIter<'p> {
    alloc: Global,
    link: SearchedLink<'p>,
    stage: Stage,
}

impl<'p> Model for DebugFileIter<'p> {
    ghost use Rattle.blz_links.specs.Searches.{Search};
    ghost use Rattle.blz_links.specs.Stages.{is_end, linker_of, paths_at};

    ghost Value = { Search };

    ghost view = { λ s. record { paths = paths_at s.link s.stage; linker = linker_of s.link; has_ended = is_end s.stage } };
}

impl<'p> DebugFileIter<'p> {
    /// The candidates for the file `linkee`; takes no memory. `canonical_linker` is the path of the file that has the
    /// link, and `build_id` the id of the file that is looked for.
    #[tactic(auto, using(crate::proofs::SameLemmas::all_other), unfolding(crate::specs::Candidates::candidates, crate::specs::Stages::paths_at))]
    pub fn new(
        alloc: Global,
        fixed_dirs: &'p [String],
        canonical_linker: Option<&'p str>,
        linkee: &'p str,
        build_id: Option<&'p [u8]>,
    ) -> DebugFileIter<'p>
        ensures all { left_of result ≡ candidates (map string_bytes fixed_dirs.entry.now)
            (option_map (λ l. l.now) canonical_linker.entry) linkee.entry.now
            (option_map (λ id. id.now) build_id.entry) }
        // No candidate has the components of the linker.
        ensures others { All (HasOther (option_map (λ l. l.now) canonical_linker.entry))
            (left_of result) }
    {
        DebugFileIter {
            alloc,
            link: SearchedLink {
                dirs: fixed_dirs,
                linker: canonical_linker,
                linkee,
                build_id,
            },
            stage: Stage::BuildId(0),
        }
    }
}

impl<'p> Iterator for DebugFileIter<'p> {
    type Item = Result<String, AllocError>;

    ghost next_gives = { Steps };

    ghost remaining = { λ s. at_most (answers_left s) };

    /// The next candidate. None exactly where none is left; after want of memory none is left.
    fn next(&mut self) -> Option<Result<String, AllocError>> {
        if let Stage::Ended = self.stage {
            return None;
        }
        let stage = mem::replace(&mut self.stage, Stage::Ended);
        match self.link.next_other(self.alloc, stage) {
            Ok(Some(found)) => {
                self.stage = found.then;
                Some(Ok(found.path))
            },
            Ok(None) => None,
            Err(e) => Some(Err(e)),
        }
    }
}
