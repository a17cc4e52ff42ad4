//! The build id of an image (ELF gABI, Note Section).
ghost use Rattle.std.specs.Prelude.{◌≡◌, map};
ghost use Rattle.std.specs.Option.{option_map};
ghost use Rattle.blz_model.specs.Part.{Exactly};
ghost use Rattle.blz_links.specs.BuildIds.{build_id_of, extent_build_id, first_build_id, image_build_id, segments_build_id};

use crate::recorded::notes::noted_build_id;
use crate::recorded::refusal::invalid;
use blz_bytes::{ByteOrder, piece_at};
use blz_constants::elf::{PT_NOTE, SHT_NOTE};
use blz_elf::{ElfNSlice, ElfParser};
use blz_error::Result;
use blz_records::{Elf64_Phdr, Elf64_Shdr, ElfN, Has32BitTy, Pod};

// Headers of which some say where notes lie in the image.
trait HasNotes: Pod + Has32BitTy {
    ghost use Rattle.blz_records.specs.declared.class.ElfN.{ElfN};
    ghost use Rattle.blz_links.specs.BuildIds.{Extent};
    ghost use Rattle.std.specs.Prelude.{Option};

    ghost notes: { ElfN Self Self.Ty32Bit → Option Extent };

    // the place of the notes and their size
    fn notes(header: &ElfN<Self>) -> Option<(u64, u64)>
        ensures { result ≡ notes header.now };
}

impl HasNotes for Elf64_Shdr {
    ghost use Rattle.blz_links.specs.BuildIds.{section_notes};

    ghost notes = { section_notes };

    fn notes(section: &ElfN<Elf64_Shdr>) -> Option<(u64, u64)> {
        if section.type_() == SHT_NOTE {
            Some((section.offset(), section.size()))
        } else {
            None
        }
    }
}

impl HasNotes for Elf64_Phdr {
    ghost use Rattle.blz_links.specs.BuildIds.{segment_notes};

    ghost notes = { segment_notes };

    fn notes(segment: &ElfN<Elf64_Phdr>) -> Option<(u64, u64)> {
        if segment.type_() == PT_NOTE {
            Some((segment.offset(), segment.file_size()))
        } else {
            None
        }
    }
}

// the build id in the notes at a place of an image, where there are some
fn build_id_at<'b>(
    image: &'b [u8],
    order: ByteOrder,
    notes: Option<(u64, u64)>,
) -> Result<Option<&'b [u8]>>
    ensures { Exactly (option_map (λ id. id.now)) result (extent_build_id order image.now notes) }
{
    let Some((offset, size)) = notes else {
        return Ok(None);
    };
    let Some((notes, _)) = piece_at(image, offset as usize, size as usize) else {
        return Err(invalid("notes lie past the image"));
    };
    Ok(noted_build_id(notes, order))
}

// the first build id in the notes of some records
fn first_build_id<'b, T: HasNotes>(
    image: &'b [u8],
    order: ByteOrder,
    records: &ElfNSlice<'b, T>,
) -> Result<Option<&'b [u8]>>
    ensures { Exactly (option_map (λ id. id.now)) result
        (first_build_id order image.now (map T.notes records.now)) }
{
    for record in records.iter(0) {
        match build_id_at(image, order, T::notes(&record)) {
            Ok(None) => (),
            Ok(Some(id)) => return Ok(Some(id)),
            Err(e) => return Err(e),
        }
    }
    Ok(None)
}

// over the segments
#[tactic(auto, unfolding(crate::specs::BuildIds::segments_build_id))]
fn segments_build_id<'b>(parser: &mut ElfParser<'b>, order: ByteOrder) -> Result<Option<&'b [u8]>>
    ensures value { Exactly (option_map (λ id. id.now)) result
        (segments_build_id order parser.old.image) }
    ensures same { parser.new ≡ parser.old }
{
    let segments = parser.program_headers()?;
    first_build_id(parser.image(), order, &segments)
}

#[tactic(auto, unfolding(crate::specs::BuildIds::image_build_id))]
fn image_build_id<'b>(parser: &mut ElfParser<'b>) -> Result<Option<&'b [u8]>>
    ensures value { Exactly (option_map (λ id. id.now)) result (image_build_id parser.old.image) }
    ensures same { parser.new ≡ parser.old }
{
    let order = parser.order()?;
    let sections = parser.section_headers()?;
    let id = first_build_id(parser.image(), order, &sections)?;
    if id.is_some() {
        return Ok(id);
    }
    segments_build_id(parser, order)
}

/// The build id of the image: the descriptor of the first note of type NT_GNU_BUILD_ID, in its sections of type SHT_NOTE
/// in order, then in its segments of type PT_NOTE (ELF gABI, Note Section). A list of notes that is cut short ends there.
/// None exactly where there is no such note, or where header, a table or notes are broken before one is found.
pub fn read_build_id<'b>(parser: &mut ElfParser<'b>) -> Option<&'b [u8]>
    ensures value { option_map (λ id. id.now) result ≡ build_id_of parser.old.image }
    ensures same { parser.new ≡ parser.old }
{
    match image_build_id(parser) {
        Ok(id) => id,
        Err(_) => None,
    }
}
