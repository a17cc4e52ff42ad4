//! The section headers and the program headers of an image.
ghost use Rattle.std.specs.Prelude.{◌≡◌};
ghost use Rattle.blz_model.specs.Part.{Exactly};
ghost use Rattle.blz_image.specs.Formats.{section_size, segment_size};
ghost use Rattle.blz_elf.specs.HeaderTables.{image_program_headers, image_section_headers, program_headers_of, section_headers_of, section_records, segment_records};
ghost use Rattle.blz_image.specs.Places.{RowsFit};
ghost use Rattle.blz_image.specs.Views.{header_view};

use crate::parser::ElfParser;
use crate::record_slice::{ElfN_Phdrs, ElfN_Shdrs, ElfNSlice};
use blz_error::Result;
use blz_image::header::Header;
use blz_image::section::sections;
use blz_image::segments::segments;
use blz_image::span::Rows;

fn open_sections<'b>(image: &'b [u8], rows: Rows) -> ElfN_Shdrs<'b>
    requires { RowsFit section_size image.now rows }
    ensures { result ≡ section_records image.now rows }
{
    ElfNSlice::open(image, rows)
}

fn open_segments<'b>(image: &'b [u8], rows: Rows) -> ElfN_Phdrs<'b>
    requires { RowsFit segment_size image.now rows }
    ensures { result ≡ segment_records image.now rows }
{
    ElfNSlice::open(image, rows)
}

#[tactic(auto, unfolding(crate::specs::HeaderTables::section_headers_of))]
fn section_headers_of<'b>(image: &'b [u8], header: &Header) -> Result<ElfN_Shdrs<'b>>
    ensures { Exactly (λ s. s) result (section_headers_of image.now (header_view header.now)) }
{
    let rows = sections(image, header)?;
    Ok(open_sections(image, rows))
}

#[tactic(auto, unfolding(crate::specs::HeaderTables::program_headers_of))]
fn program_headers_of<'b>(image: &'b [u8], header: &Header) -> Result<ElfN_Phdrs<'b>>
    ensures { Exactly (λ s. s) result (program_headers_of image.now (header_view header.now)) }
{
    let rows = segments(image, header)?;
    Ok(open_segments(image, rows))
}

impl<'b> ElfParser<'b> {
    /// The section headers (ELF gABI, Sections). Refused by the first mark of header and section table: InvalidData or
    /// Unsupported.
    #[tactic(auto, unfolding(crate::specs::HeaderTables::image_section_headers))]
    pub fn section_headers(&mut self) -> Result<ElfN_Shdrs<'b>>
        ensures value { Exactly (λ s. s) result (image_section_headers self.old.image) }
        ensures same { self.new ≡ self.old }
    {
        let header = self.header()?;
        section_headers_of(self.image, &header)
    }

    /// The program headers (ELF gABI, Program Header). Refused by the first mark of header and segments: InvalidData or
    /// Unsupported.
    #[tactic(auto, unfolding(crate::specs::HeaderTables::image_program_headers))]
    pub fn program_headers(&mut self) -> Result<ElfN_Phdrs<'b>>
        ensures value { Exactly (λ s. s) result (image_program_headers self.old.image) }
        ensures same { self.new ≡ self.old }
    {
        let header = self.header()?;
        program_headers_of(self.image, &header)
    }
}
