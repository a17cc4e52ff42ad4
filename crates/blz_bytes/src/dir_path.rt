//! A path in two parts.
ghost use Rattle.std.specs.Prelude.{◌≡◌, ◌++◌, length, slice_get, IfOk, IfErr};
ghost use Rattle.blz_bytes.specs.Joined.{joined, separator_of};

use std::alloc::AllocError;
use std::marker::Model;

/// The bytes of a path that is borrowed in two parts.
#[derive(Drop)]
pub struct DirPath<'d> {
    head: &'d [u8],
    // nothing, or one `/`
    separator: &'static [u8],
    tail: &'d [u8],
}

impl<'d> Model for DirPath<'d> {
    ghost use Rattle.std.specs.Prelude.{List, ℕ, ◌≤◌, length};

    ghost Value = { List ℕ };

    ghost use Rattle.blz_bytes.specs.PathBytes.{path_bytes};

    ghost view = { path_bytes };

    ghost invariant = { λ p. length p.separator.now ≤ 1 };
}

fn separator_of(head: &[u8]) -> &'static [u8]
    ensures { result.now ≡ separator_of head.now }
{
    match head.last() {
        Some(last) if *last != b'/' => b"/",
        _ => b"",
    }
}

impl<'d> DirPath<'d> {
    /// A path of one part.
    pub fn new(head: &'d [u8]) -> DirPath<'d>
        ensures { result ≡ head.entry.now }
    {
        DirPath {
            head,
            separator: b"",
            tail: b"",
        }
    }

    /// The tail where it begins with `/`, else the head, `/` where the head needs one, and the tail.
    pub fn joined(head: &'d [u8], tail: &'d [u8]) -> DirPath<'d>
        ensures { result ≡ joined head.entry.now tail.entry.now }
    {
        match tail.first() {
            Some(b'/') => DirPath::new(tail),
            _ => DirPath {
                head,
                separator: separator_of(head),
                tail,
            },
        }
    }

    /// The number of bytes.
    pub fn len(&self) -> usize
        ensures { result ≡ length self.now }
    {
        self.head.len() + self.separator.len() + self.tail.len()
    }

    /// The byte at a place, counted from 0; none from the length on.
    pub fn byte_at(&self, at: usize) -> Option<u8>
        ensures { result ≡ slice_get self.now at }
    {
        match self.head.get(at) {
            Some(byte) => Some(*byte),
            None => match self.separator.get(at - self.head.len()) {
                Some(byte) => Some(*byte),
                None => self
                    .tail
                    .get(at - self.head.len() - self.separator.len())
                    .copied(),
            },
        }
    }

    /// Appends the bytes; after want of memory `out` is as before.
    pub fn write_to(&self, out: &mut Vec<u8>) -> Result<(), AllocError>
        ensures appended { IfOk result (λ _. out.new.items ≡ out.old.items ++ self.now) }
        ensures kept { IfErr result (λ _. out.new.items ≡ out.old.items) }
    {
        out.reserve(self.len())?;
        out.extend_from_slice(self.head)?;
        out.extend_from_slice(self.separator)?;
        out.extend_from_slice(self.tail)
    }
}
