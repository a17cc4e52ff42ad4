//! An image whose header, section table and section names were read.
ghost use Rattle.std.specs.Prelude.{◌≡◌, IfOk, slice_get};
ghost use Rattle.std.specs.Option.{option_map};
ghost use Rattle.blz_image.specs.Images.{elf_of, names_of, section_named, section_called, data_named, holds_bytes, is_relocatable};
ghost use Rattle.blz_image.specs.Names.{names_in};
ghost use Rattle.blz_model.specs.Part.{Good};
ghost use Rattle.blz_image.specs.Headers.{header_of};
ghost use Rattle.blz_image.specs.Sections.{sections_of};
ghost use Rattle.blz_image.specs.Views.{header_view};
ghost use Rattle.blz_image.specs.Formats.{section_size};
ghost use Rattle.blz_image.specs.Places.{RowsFit, sections_in};
ghost use Rattle.blz_model.specs.Part.{Exactly};
ghost use Rattle.blz_image.specs.Frames.{FrameFits, frame_view};

use crate::format::Format;
use crate::header::Header;
use crate::record::Records;
use crate::section::{Section, SectionTable, data, names};
use crate::span::{Rows, Span};
use crate::text::{is_text_at, next_name};
use blz_constants::elf::{ET_REL, SHT_NOBITS};
use blz_error::Result;
use std::marker::Model;

/// What stands at the head of an image, as places and numbers.
#[derive(Clone, Copy)]
pub struct Frame {
    /// The header.
    pub header: Header,
    /// Where the section table lies.
    pub sections: Rows,
    /// Where the texts of the sections' names lie.
    pub texts: Span,
}

/// An image whose names of sections can be read.
#[derive(Drop)]
pub struct Image<'b> {
    bytes: &'b [u8],
    header: Header,
    sections: SectionTable<'b>,
    texts: &'b [u8],
}

impl<'b> Model for Image<'b> {
    ghost use Rattle.std.specs.Prelude.{◌≡◌};
    ghost use Rattle.blz_image.specs.Images.{Elf, names_of};
    ghost use Rattle.blz_model.specs.Part.{Good};
    ghost use Rattle.blz_image.specs.Views.{header_view};
    ghost use Rattle.blz_image.specs.Names.{names_in};

    ghost Value = { Elf };

    ghost view = { λ a. record { image = a.bytes.now; header = header_view a.header; sections = a.sections; names = names_in a.texts.now a.sections } };

    ghost invariant = { λ a. names_of a.texts.now a.sections ≡ Good (names_in a.texts.now a.sections) };
}

/// Reads each name, so that the first bad one is met.
fn check_names(texts: &[u8], sections: &SectionTable<'_>) -> Result<()>
    ensures { Exactly (λ _. names_in texts.now sections.now) result
        (names_of texts.now sections.now) }
{
    let mut last = None;
    for i in 1..sections.len() {
        last = Some(next_name(texts, last, sections.at(i).name_offset)?);
    }
    Ok(())
}

/// What stands at the head of an image whose header and section table were read.
#[tactic(auto, unfolding(crate::specs::Images::elf_of))]
pub fn read_frame(image: &[u8], header: Header, rows: Rows) -> Result<Frame>
    requires header { header_of image.now ≡ Good (header_view header) }
    requires rows { sections_of image.now (header_view header)
        ≡ Good (sections_in image.now rows) }
    requires fits { RowsFit section_size image.now rows }
    ensures value { Exactly (frame_view image.now) result (elf_of image.now) }
    ensures fits { IfOk result (FrameFits image.now) }
{
    let sections = Records::open(image, rows);
    let texts = names(image, &header, &sections)?;
    check_names(&image[texts.at..texts.at + texts.len], &sections)?;
    Ok(Frame {
        header,
        sections: rows,
        texts,
    })
}

impl<'b> Image<'b> {
    /// The image of a frame.
    pub fn open(bytes: &'b [u8], frame: Frame) -> Image<'b>
        requires { FrameFits bytes.now frame }
        ensures { result ≡ frame_view bytes.now frame }
    {
        Image {
            bytes,
            header: frame.header,
            sections: Records::open(bytes, frame.sections),
            texts: &bytes[frame.texts.at..frame.texts.at + frame.texts.len],
        }
    }

    /// The first section of that name, from 1 up.
    pub fn find(&self, name: &str) -> Option<usize>
        ensures { result ≡ section_named self.now name.now }
    {
        for i in 1..self.sections.len() {
            if is_text_at(self.texts, self.sections.at(i).name_offset, name.as_bytes()) {
                return Some(i);
            }
        }
        None
    }

    /// The bytes of the image.
    pub fn bytes(&self) -> &'b [u8]
        ensures { result.now ≡ self.now.image }
    {
        self.bytes
    }

    /// The header of the first section of that name.
    #[tactic(auto, unfolding(crate::specs::Images::section_called))]
    pub fn section_called(&self, name: &str) -> Option<Section>
        ensures { result ≡ section_called self.now name.now }
    {
        let index = self.find(name)?;
        self.section(index)
    }

    /// The data of the first section of that name, nothing where there is none.
    #[tactic(auto, unfolding(crate::specs::Images::data_named))]
    pub fn data_named(&self, name: &str) -> Result<&'b [u8]>
        ensures { Exactly (λ d. d.now) result (data_named self.now name.now) }
    {
        match self.section_called(name) {
            Some(section) => data(self.bytes, &section, self.header.format),
            None => Ok(&[]),
        }
    }

    /// Whether a section of that name is there, not NOBITS, and of a size that is not 0.
    pub fn holds_bytes(&self, name: &str) -> bool
        ensures { result ≡ holds_bytes self.now name.now }
    {
        match self.section_called(name) {
            Some(section) => section.kind != SHT_NOBITS && section.size != 0,
            None => false,
        }
    }

    /// Whether the image is a relocatable file.
    pub fn is_relocatable(&self) -> bool
        ensures { result ≡ is_relocatable self.now }
    {
        self.header.file_type == ET_REL
    }

    /// How the image's records are laid out.
    pub fn format(&self) -> Format
        ensures { result ≡ self.now.header.format }
    {
        self.header.format
    }

    /// The section header at an index, none outside the table.
    pub fn section(&self, index: usize) -> Option<Section>
        ensures { result ≡ slice_get self.now.sections index }
    {
        if index < self.sections.len() {
            Some(self.sections.at(index))
        } else {
            None
        }
    }
}
