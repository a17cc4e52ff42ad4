//! Parts of the paths of candidates.
ghost use Rattle.std.specs.Prelude.{◌≡◌, ◌≤◌, ◌∷◌, [], ◌++◌, length, string_bytes, IfOk};
ghost use Rattle.blz_error.specs.Reports.{each_after};
ghost use Rattle.blz_bytes.specs.Joined.{slash};
ghost use Rattle.blz_links.specs.Candidates.{build_id_path, inner_path, joined_inner, without_last};
ghost use Rattle.blz_links.specs.Paths.{texts_of};
ghost use Rattle.blz_links.specs.PathViews.{piece_view};

use crate::path_pieces::PathPieces;
use crate::paths::is_rooted;
use std::alloc::{AllocError, Global};

/// The path of the debug file of a build id, below a debug directory.
pub fn build_id_path(alloc: Global, id: &[u8]) -> Result<String, AllocError>
    requires { 1 ≤ length id.now }
    ensures { IfOk result (λ path. string_bytes path ≡ build_id_path id.now) }
{
    let mut path = String::new(alloc);
    path.push_str(".build-id/")?;
    path.push_str(hex::encode(alloc, &id[..1])?.as_str())?;
    path.push_str("/")?;
    path.push_str(hex::encode(alloc, &id[1..])?.as_str())?;
    path.push_str(".debug")?;
    Ok(path)
}

// the texts of some components but the last, joined by slashes
fn join_but_last(alloc: Global, pieces: PathPieces<'_>) -> Result<String, AllocError>
    ensures { IfOk result (λ path. string_bytes path ≡ joined_inner (texts_of pieces.entry)) }
{
    let mut pieces = pieces;
    let mut path = String::new(alloc);
    let Some(first) = pieces.next() else {
        return Ok(path);
    };
    let Some(mut last) = pieces.next() else {
        return Ok(path);
    };
    path.push_str(first.text)?;
    for piece in pieces {
        path.push_str("/")?;
        path.push_str(last.text)?;
        last = piece;
    }
    Ok(path)
}

/// The components of a path without the first and the last, where the root counts as one, joined by slashes.
#[tactic(auto, unfolding(crate::specs::Paths::components_of))]
pub fn inner_path(alloc: Global, path: &str) -> Result<String, AllocError>
    ensures { IfOk result (λ inner. string_bytes inner ≡ inner_path path.now) }
{
    let mut pieces = PathPieces::new(path);
    if !is_rooted(path) {
        let _ = pieces.next();
    }
    join_but_last(alloc, pieces)
}
