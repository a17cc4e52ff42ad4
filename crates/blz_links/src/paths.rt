//! Paths as texts.
ghost use Rattle.std.specs.Prelude.{◌≡◌, ◌≤◌, ◌↔◌, length, slice_get, IfOk, IsTrue, string_bytes};
ghost use Rattle.std.specs.Cmp.Lexicographic.{pointwise};
ghost use Rattle.std.specs.Option.{option_map};
ghost use Rattle.std.specs.Str.{bytes_eq};
ghost use Rattle.blz_bytes.specs.Joined.{is_slash, joined, separator_of};
ghost use Rattle.blz_links.specs.Paths.{components_of, directory_of, last_piece, length_before, parent_of, same_components, texts_of, with_file_name, without_slashes};
ghost use Rattle.blz_links.specs.PathViews.{piece_view};

use crate::path_pieces::{PathPiece, PathPieces};
use std::alloc::{AllocError, Global};

/// Whether a path begins at the root.
pub(crate) fn is_rooted(path: &str) -> bool
    ensures { result ≡ is_slash (slice_get path.now 0) }
{
    matches!(path.as_bytes().first(), Some(b'/'))
}

// what stands between a head and what is put behind it
fn separator_of(head: &str) -> &'static str
    ensures { result.now ≡ separator_of head.now }
{
    match head.as_bytes().last() {
        Some(last) if *last != b'/' => "/",
        _ => "",
    }
}

/// The tail where it begins with `/`; else the head, `/` where the head is not empty and does not end in one, and the
/// tail.
pub fn join(alloc: Global, head: &str, tail: &str) -> Result<String, AllocError>
    ensures { IfOk result (λ path. string_bytes path ≡ joined head.now tail.now) }
{
    let mut path = String::new(alloc);
    if !is_rooted(tail) {
        path.push_str(head)?;
        path.push_str(separator_of(head))?;
    }
    path.push_str(tail)?;
    Ok(path)
}

// whether the texts of some components are equal
fn same_texts(a: PathPieces<'_>, b: PathPieces<'_>) -> bool
    ensures { result ≡ pointwise bytes_eq (texts_of a.entry) (texts_of b.entry) }
{
    let mut others = b;
    for piece in a {
        match others.next() {
            Some(other) if other.text == piece.text => (),
            _ => return false,
        }
    }
    others.next().is_none()
}

// whether the components of two paths are equal
#[tactic(auto, unfolding(crate::specs::Paths::same_components, crate::specs::Paths::components_of))]
fn have_same(a: &str, b: &str) -> bool
    ensures { result ≡ same_components a.now b.now }
{
    is_rooted(a) == is_rooted(b) && same_texts(PathPieces::new(a), PathPieces::new(b))
}

/// Whether two paths have the same components: the root where they begin with `/`, and the parts between slashes, but
/// no empty one and no `.` behind the beginning.
#[tactic(auto, using(crate::proofs::SameLemmas::same_components_decides))]
pub fn same_components(a: &str, b: &str) -> bool
    ensures value { result ≡ same_components a.now b.now }
    ensures meaning { IsTrue result ↔ (components_of a.now ≡ components_of b.now) }
{
    have_same(a, b)
}

// the last component
fn last_piece(path: &str) -> Option<PathPiece<'_>>
    ensures { option_map piece_view result ≡ last_piece path.now }
{
    let mut last = None;
    for piece in PathPieces::new(path) {
        last = Some(piece);
    }
    last
}

// how much of the first bytes is left without the slashes at their end
fn without_slashes(path: &[u8], end: usize) -> usize
    requires { end ≤ length path.now }
    ensures { result ≡ without_slashes path.now end }
{
    let mut end = end;
    while end > 0 && path[end - 1] == b'/' {
        end -= 1;
    }
    end
}

// where a path ends that is cut before an offset; the root stays
fn length_before(path: &[u8], offset: usize) -> usize
    requires { offset ≤ length path.now }
    ensures { result ≡ length_before path.now offset }
{
    let len = without_slashes(path, offset);
    if len == 0 && offset > 0 { 1 } else { len }
}

/// The path before its last component, without the slashes at its end; the root stays `/`. None exactly for a path that
/// has no component but the root.
#[tactic(auto, unfolding(crate::specs::Paths::parent_of))]
pub fn parent(path: &str) -> Option<&str>
    ensures { option_map (λ above. above.now) result ≡ parent_of path.now }
{
    let piece = last_piece(path)?;
    Some(&path[..length_before(path.as_bytes(), piece.offset)])
}

// what a file name is put behind: the parent where the path has one, else the path
fn directory_of(path: &str) -> &str
    ensures { result.now ≡ directory_of path.now }
{
    match last_piece(path) {
        Some(piece) if piece.is_name() => parent(path).unwrap_or(""),
        _ => path,
    }
}

/// The path with another file name, or with a file name where its last component is none: the root, `.` or `..`.
#[tactic(auto, unfolding(crate::specs::Paths::with_file_name))]
pub fn set_file_name(alloc: Global, path: &str, name: &str) -> Result<String, AllocError>
    ensures { IfOk result (λ set. string_bytes set ≡ with_file_name path.now name.now) }
{
    join(alloc, directory_of(path), name)
}
