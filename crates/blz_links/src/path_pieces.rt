//! The components of a path, one after the other.
ghost use Rattle.std.specs.Prelude.{◌≡◌, ◌+◌, ◌-◌, ◌<◌, ◌≤◌, ◌∷◌, [], ℕ, Some, length, MatchOption, IfSome};
ghost use Rattle.std.specs.Iterator.{YieldsFirstBy, item_count};
ghost use Rattle.blz_links.specs.Paths.{is_component, is_name, kept_before, pieces_from, pieces_of};
ghost use Rattle.blz_links.specs.PathViews.{piece_view};

use std::marker::Model;

/// A part of a path between slashes, and where it begins.
#[derive(Clone, Copy)]
pub struct PathPiece<'p> {
    pub offset: usize,
    pub text: &'p str,
}

impl<'p> PathPiece<'p> {
    // Nothing between two slashes is no component, and neither is `.` behind the beginning.
    fn is_component(&self) -> bool
        ensures { result ≡ is_component (piece_view self.now) }
    {
        !self.text.is_empty() && (self.offset == 0 || self.text != ".")
    }

    /// Whether it is neither `.` nor `..`.
    pub fn is_name(&self) -> bool
        ensures { result ≡ is_name (Some (piece_view self.now)) }
    {
        self.text != "." && self.text != ".."
    }
}

// the text before the next slash, and what is behind it
fn first_part(rest: &str) -> (&str, &str)
    ensures pieces { (at : ℕ)
        → pieces_from at rest.now ≡ kept_before (record { offset = at; text = result.0.now })
        (pieces_from (at + (length rest.now - length result.1.now)) result.1.now) }
    ensures shorter { 0 < length rest.now → length result.1.now < length rest.now }
{
    match rest.split_once('/') {
        Some(parts) => parts,
        None => (rest, ""),
    }
}

// the first component of what is left of a path of `len` bytes, and what is left behind it
fn first_component<'p>(len: usize, rest: &'p str) -> Option<(PathPiece<'p>, &'p str)>
    requires { length rest.now ≤ len }
    ensures value { MatchOption result (pieces_from (len - length rest.now) rest.now ≡ [])
        (λ r. pieces_from (len - length rest.now) rest.now
        ≡ piece_view r.0 ∷ pieces_from (len - length r.1.now) r.1.now) }
    ensures within { IfSome result (λ r. length r.1.now ≤ len) }
{
    let mut rest = rest;
    while !rest.is_empty() {
        let (text, behind) = first_part(rest);
        let piece = PathPiece {
            offset: len - rest.len(),
            text,
        };
        if piece.is_component() {
            return Some((piece, behind));
        }
        rest = behind;
    }
    None
}

/// The components that are left of a path, the root aside.
#[derive(Drop)]
pub struct PathPieces<'p> {
    // the length of the whole path
    len: usize,
    rest: &'p str,
}

impl<'p> Model for PathPieces<'p> {
    ghost use Rattle.std.specs.Prelude.{◌≤◌, ◌-◌, List, length};
    ghost use Rattle.blz_links.specs.Paths.{Piece, pieces_from};

    ghost Value = { List Piece };

    ghost view = { λ p. pieces_from (p.len - length p.rest.now) p.rest.now };

    ghost invariant = { λ p. length p.rest.now ≤ p.len };
}

impl<'p> PathPieces<'p> {
    /// All of them.
    pub fn new(path: &'p str) -> PathPieces<'p>
        ensures { result ≡ pieces_of path.entry.now }
    {
        PathPieces {
            len: path.len(),
            rest: path,
        }
    }
}

impl<'p> Iterator for PathPieces<'p> {
    type Item = PathPiece<'p>;

    ghost next_gives = { YieldsFirstBy piece_view (λ s. s) };

    ghost remaining = { item_count (λ s. s) };

    fn next(&mut self) -> Option<PathPiece<'p>> {
        let (piece, rest) = first_component(self.len, self.rest)?;
        self.rest = rest;
        Some(piece)
    }
}
