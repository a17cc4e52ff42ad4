//! The section table, and the bytes of a section.
ghost use Rattle.std.specs.Prelude.{◌≡◌, ◌+◌, ◌*◌, ◌<◌, ◌≤◌, length, Some, IfOk};
ghost use Rattle.blz_model.specs.Part.{Exactly, Good};
ghost use Rattle.blz_image.specs.Headers.{header_of};
ghost use Rattle.blz_image.specs.Formats.{section_size};
ghost use Rattle.blz_image.specs.Places.{SpanFits, span_in, RowsFit, sections_in, run_of};
ghost use Rattle.blz_image.specs.Sections.{first_section, section_count, sections_of, raw_data, data_of, run_in};
ghost use Rattle.blz_image.specs.Images.{name_table, name_index, image_section_data};
ghost use Rattle.blz_image.specs.Views.{header_view};

use crate::format::{Class, Format};
use crate::header::Header;
use crate::number::word_in;
use crate::record::{Record, Records};
use crate::span::{Rows, Span, lie_inside};
use blz_constants::elf::{SHF_COMPRESSED, SHN_XINDEX, SHT_NOBITS};
use blz_error::{Error, ErrorKind, Result, Str};
use blz_records::u32_in;

/// What is read of a section header.
#[derive(Clone, Copy)]
pub struct Section {
    /// sh_name.
    pub name_offset: u32,
    /// sh_type.
    pub kind: u32,
    /// sh_flags.
    pub flags: u64,
    /// sh_addr.
    pub addr: u64,
    /// sh_offset.
    pub offset: u64,
    /// sh_size.
    pub size: u64,
    /// sh_link.
    pub link: u32,
    /// sh_info.
    pub info: u32,
}

/// The section headers, where they lie in the image.
pub type SectionTable<'b> = Records<'b, Section>;

impl Record for Section {
    ghost use Rattle.blz_image.specs.Formats.{section_size};
    ghost use Rattle.blz_image.specs.Sections as model;

    ghost SIZE = { section_size };

    ghost record_at = { model.section_at };

    fn size(class: Class) -> usize {
        class.section_size()
    }

    fn read(image: &[u8], at: usize, format: Format) -> Section {
        let word = format.class.word();
        Section {
            name_offset: u32_in(image, at, format.order),
            kind: u32_in(image, at + 4, format.order),
            flags: word_in(image, at + 8, format),
            addr: word_in(image, at + 8 + word, format),
            offset: word_in(image, at + 8 + 2 * word, format),
            size: word_in(image, at + 8 + 3 * word, format),
            link: u32_in(image, at + 8 + 4 * word, format.order),
            info: u32_in(image, at + 12 + 4 * word, format.order),
        }
    }
}

/// The first section header, which holds what the header has no room for.
#[tactic(auto, unfolding(crate::specs::Sections::first_section))]
pub fn first_section(image: &[u8], header: &Header) -> Result<Section>
    ensures { Exactly (λ s. s) result (first_section image.now (header_view header.now)) }
{
    let size = header.format.class.section_size();
    if !lie_inside(image.len(), header.shoff, size, 1) {
        return Err(Error::new(ErrorKind::InvalidData, Str::fixed("first section header")));
    }
    Ok(Section::read(image, header.shoff as usize, header.format))
}

/// The number of sections.
#[tactic(auto, unfolding(crate::specs::Sections::section_count))]
fn section_count(image: &[u8], header: &Header) -> Result<u64>
    ensures { Exactly (λ n. n) result (section_count image.now (header_view header.now)) }
{
    if header.shnum != 0 {
        return Ok(u64::from(header.shnum));
    }
    if header.shoff == 0 {
        return Ok(0);
    }
    let first = first_section(image, header)?;
    Ok(first.size)
}

/// The place of the section table.
#[tactic(auto, unfolding(crate::specs::Sections::sections_of))]
pub fn sections(image: &[u8], header: &Header) -> Result<Rows>
    ensures value { Exactly (sections_in image.now) result
        (sections_of image.now (header_view header.now)) }
    ensures fits { IfOk result (RowsFit section_size image.now) }
    ensures place { IfOk result
        (λ rows. (rows.format ≡ header.now.format) × (rows.at ≡ header.now.shoff)) }
{
    let count = section_count(image, header)?;
    let size = header.format.class.section_size();
    if !lie_inside(image.len(), header.shoff, size, count) {
        return Err(Error::new(ErrorKind::InvalidData, Str::fixed("section table")));
    }
    Ok(Rows {
        format: header.format,
        at: header.shoff as usize,
        count: count as usize,
    })
}

/// The place of a section's bytes, whatever its flags say.
#[tactic(auto, unfolding(crate::specs::Sections::raw_data))]
pub fn raw(image: &[u8], section: &Section) -> Result<Span>
    ensures value { Exactly (span_in image.now) result (raw_data image.now section.now) }
    ensures fits { IfOk result (SpanFits image.now) }
{
    if section.kind == SHT_NOBITS {
        return Ok(Span { at: 0, len: 0 });
    }
    let at = section.offset as usize;
    let len = section.size as usize;
    if at > image.len() || len > image.len() - at {
        return Err(Error::new(ErrorKind::InvalidData, Str::fixed("section past the image")));
    }
    Ok(Span { at, len })
}

/// The data of a section.
#[tactic(auto, unfolding(crate::specs::Sections::data_of))]
pub fn data<'b>(image: &'b [u8], section: &Section, format: Format) -> Result<&'b [u8]>
    ensures { Exactly (λ d. d.now) result (data_of format image.now section.now) }
{
    let span = raw(image, section)?;
    if section.kind != SHT_NOBITS && section.flags & SHF_COMPRESSED == SHF_COMPRESSED {
        if span.len < format.class.compression_size() {
            return Err(Error::new(
                ErrorKind::InvalidData,
                Str::fixed("short compression header"),
            ));
        }
        return Err(Error::new(ErrorKind::Unsupported, Str::fixed("compressed section")));
    }
    Ok(&image[span.at..span.at + span.len])
}

/// The data of the section at an index of the table.
#[tactic(auto, unfolding(crate::specs::Images::image_section_data))]
pub fn data_at(image: &[u8], header: Header, rows: Rows, idx: usize) -> Result<&[u8]>
    requires header { header_of image.now ≡ Good (header_view header) }
    requires rows { sections_of image.now (header_view header)
        ≡ Good (sections_in image.now rows) }
    requires fits { RowsFit section_size image.now rows }
    ensures { Exactly (λ d. d.now) result (image_section_data image.now idx) }
{
    let sections: SectionTable<'_> = Records::open(image, rows);
    if idx >= sections.len() {
        return Err(Error::new(ErrorKind::InvalidInput, Str::fixed("section index")));
    }
    data(image, &sections.at(idx), header.format)
}

/// The place of a section's records, each of `size` bytes.
#[tactic(auto, unfolding(crate::specs::Sections::run_in))]
pub fn records(image: &[u8], section: &Section, size: usize, format: Format) -> Result<Rows>
    requires { 0 < size }
    ensures value { Exactly run_of result (run_in size image.now section.now) }
    ensures fits { IfOk result (λ r. r.at + size * r.count ≤ length image.now) }
    ensures format { IfOk result (λ r. r.format ≡ format) }
{
    if section.kind == SHT_NOBITS || section.size == 0 {
        return Ok(Rows {
            format,
            at: 0,
            count: 0,
        });
    }
    let at = section.offset as usize;
    let len = section.size as usize;
    if len % size != 0 {
        return Err(Error::new(ErrorKind::InvalidData, Str::fixed("part of a record")));
    }
    if at > image.len() || len > image.len() - at {
        return Err(Error::new(ErrorKind::InvalidData, Str::fixed("records past the image")));
    }
    Ok(Rows {
        format,
        at,
        count: len / size,
    })
}

/// The index of the table of the sections' names.
fn name_index(header: &Header, sections: &SectionTable<'_>) -> usize
    requires { 2 ≤ length sections.now }
    ensures { name_index (header_view header.now) sections.now ≡ Some result }
{
    if header.shstrndx == SHN_XINDEX {
        sections.at(0).link as usize
    } else {
        header.shstrndx as usize
    }
}

/// The place of the table of the sections' names.
#[tactic(auto, unfolding(crate::specs::Images::name_table))]
pub fn names(image: &[u8], header: &Header, sections: &SectionTable<'_>) -> Result<Span>
    ensures value { Exactly (span_in image.now) result
        (name_table image.now (header_view header.now) sections.now) }
    ensures fits { IfOk result (SpanFits image.now) }
{
    if sections.len() < 2 {
        return Ok(Span { at: 0, len: 0 });
    }
    let index = name_index(header, sections);
    if index >= sections.len() {
        return Err(Error::new(ErrorKind::InvalidInput, Str::fixed("name table index")));
    }
    raw(image, &sections.at(index))
}
