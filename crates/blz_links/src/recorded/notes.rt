//! Notes (ELF gABI, Note Section).
ghost use Rattle.std.specs.Prelude.{◌≡◌, ◌≤◌, ◌+◌, ◌^◌};
ghost use Rattle.std.specs.Option.{option_map};
ghost use Rattle.blz_links.specs.Notes.{build_id_among, is_build_id, note_at, notes_of, padded};
ghost use Rattle.blz_links.specs.NoteViews.{note_view};

use blz_bytes::{ByteOrder, piece_at, u32_at};
use blz_constants::elf::NT_GNU_BUILD_ID;

/// A note: its type, its name and its descriptor.
#[derive(Clone, Copy)]
pub struct Note<'b> {
    pub kind: u32,
    pub name: &'b [u8],
    pub descriptor: &'b [u8],
}

impl<'b> Note<'b> {
    // whether the descriptor is a build id
    fn is_build_id(&self) -> bool
        ensures { result ≡ is_build_id (note_view self.now) }
    {
        self.kind == NT_GNU_BUILD_ID && self.name == b"GNU\0".as_slice()
    }
}

// the size with its padding
fn padded(size: u32) -> usize
    ensures value { result ≡ padded size }
    ensures small { result ≤ 2 ^ 32 }
{
    (size as usize).next_multiple_of(4)
}

/// The note at a place and the place behind it; none where it is cut short.
#[tactic(auto, unfolding(crate::specs::Notes::note_at))]
fn note_at<'b>(bytes: &'b [u8], at: usize, order: ByteOrder) -> Option<(Note<'b>, usize)>
    ensures value { option_map (λ r. (note_view r.0, r.1)) result ≡ note_at order bytes.now at }
{
    let (name_size, at) = u32_at(bytes, at, order)?;
    let (size, at) = u32_at(bytes, at, order)?;
    let (kind, at) = u32_at(bytes, at, order)?;
    let (name, _) = piece_at(bytes, at, name_size as usize)?;
    let at = at + padded(name_size);
    let (descriptor, _) = piece_at(bytes, at, size as usize)?;
    let note = Note {
        kind,
        name,
        descriptor,
    };
    Some((note, at + padded(size)))
}

/// The descriptor of the first note that is a build id (NT_GNU_BUILD_ID); a note that is cut short ends the list.
pub fn noted_build_id<'b>(bytes: &'b [u8], order: ByteOrder) -> Option<&'b [u8]>
    ensures { option_map (λ id. id.now) result ≡ build_id_among (notes_of order bytes.now) }
{
    let mut at = 0;
    for _ in 0..bytes.len() {
        let (note, next) = note_at(bytes, at, order)?;
        if note.is_build_id() {
            return Some(note.descriptor);
        }
        at = next;
    }
    None
}
