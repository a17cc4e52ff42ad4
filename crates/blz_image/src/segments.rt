//! The segments of an image, where they lie in it.
ghost use Rattle.std.specs.Prelude.{◌≡◌, ◌+◌, ◌≤◌, ◌<◌, length, IfOk};
ghost use Rattle.blz_model.specs.Part.{Exactly};
ghost use Rattle.blz_image.specs.Formats.{segment_size};
ghost use Rattle.blz_image.specs.Places.{RowsFit};
ghost use Rattle.blz_image.specs.Segments.{segment_count, segments_of, file_place, address_of, first_given};
ghost use Rattle.blz_image.specs.SegmentViews.{segments_in};
ghost use Rattle.blz_image.specs.Views.{header_view};

use crate::format::{Class, Format};
use crate::header::Header;
use crate::number::word_in;
use crate::record::{Record, Records};
use crate::section::first_section;
use crate::span::{Rows, lie_inside};
use blz_constants::elf::{PN_XNUM, PT_LOAD};
use blz_error::{Error, ErrorKind, Result, Str};
use blz_records::u32_in;

/// What is read of a program header.
#[derive(Clone, Copy)]
pub struct Segment {
    /// p_type.
    pub kind: u32,
    /// p_offset.
    pub offset: u64,
    /// p_vaddr.
    pub addr: u64,
    /// p_filesz.
    pub file_size: u64,
}

impl Segment {
    /// The place in the file of `size` bytes at an address.
    fn file_place(&self, addr: u64, size: u64) -> Option<u64>
        ensures { result ≡ file_place addr size self.now }
    {
        if self.kind != PT_LOAD || addr < self.addr {
            return None;
        }
        let distance = addr - self.addr;
        if distance > self.file_size || (distance == self.file_size && size != 0) {
            return None;
        }
        distance.checked_add(self.offset)
    }

    /// The address of a place in the file.
    fn address_of(&self, offset: u64) -> Option<u64>
        ensures { result ≡ address_of offset self.now }
    {
        if self.kind != PT_LOAD || offset < self.offset || offset - self.offset >= self.file_size {
            return None;
        }
        (offset - self.offset).checked_add(self.addr)
    }
}

/// The segments of an image.
pub type SegmentTable<'b> = Records<'b, Segment>;

impl Record for Segment {
    ghost use Rattle.blz_image.specs.Formats.{segment_size};
    ghost use Rattle.blz_image.specs.Segments as model;

    ghost SIZE = { segment_size };

    ghost record_at = { model.segment_at };

    fn size(class: Class) -> usize {
        class.segment_size()
    }

    fn read(image: &[u8], at: usize, format: Format) -> Segment {
        let word = format.class.word();
        Segment {
            kind: u32_in(image, at, format.order),
            offset: word_in(image, at + word, format),
            addr: word_in(image, at + 2 * word, format),
            file_size: word_in(image, at + 4 * word, format),
        }
    }
}

/// The number of segments.
#[tactic(auto, unfolding(crate::specs::Segments::segment_count))]
fn segment_count(image: &[u8], header: &Header) -> Result<u64>
    ensures { Exactly (λ n. n) result (segment_count image.now (header_view header.now)) }
{
    if header.phnum != PN_XNUM {
        return Ok(u64::from(header.phnum));
    }
    if header.shoff == 0 {
        return Err(Error::new(ErrorKind::InvalidData, Str::fixed("segment count")));
    }
    let first = first_section(image, header)?;
    Ok(u64::from(first.info))
}

/// The place of the segments.
#[tactic(auto, unfolding(crate::specs::Segments::segments_of))]
pub fn segments(image: &[u8], header: &Header) -> Result<Rows>
    ensures value { Exactly (segments_in image.now) result
        (segments_of image.now (header_view header.now)) }
    ensures fits { IfOk result (RowsFit segment_size image.now) }
    ensures place { IfOk result
        (λ rows. (rows.format ≡ header.now.format) × (rows.at ≡ header.now.phoff)) }
{
    let count = segment_count(image, header)?;
    let size = header.format.class.segment_size();
    if !lie_inside(image.len(), header.phoff, size, count) {
        return Err(Error::new(ErrorKind::InvalidData, Str::fixed("segment table")));
    }
    Ok(Rows {
        format: header.format,
        at: header.phoff as usize,
        count: count as usize,
    })
}

/// The place in the file of `size` bytes at an address, by the first segment that gives one.
pub fn file_place(segments: &SegmentTable<'_>, addr: u64, size: u64) -> Option<u64>
    ensures { result ≡ first_given (file_place addr size) segments.now }
{
    for i in 0..segments.len() {
        let place = segments.at(i).file_place(addr, size);
        if place.is_some() {
            return place;
        }
    }
    None
}

/// The address of a place in the file, by the first segment that gives one.
pub fn address_of(segments: &SegmentTable<'_>, offset: u64) -> Option<u64>
    ensures { result ≡ first_given (address_of offset) segments.now }
{
    for i in 0..segments.len() {
        let addr = segments.at(i).address_of(offset);
        if addr.is_some() {
            return addr;
        }
    }
    None
}
