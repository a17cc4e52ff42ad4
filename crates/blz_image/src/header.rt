//! The header of an image.
ghost use Rattle.std.specs.Prelude.{◌≡◌, ◌≤◌, length};
ghost use Rattle.blz_model.specs.Part.{Exactly};
ghost use Rattle.blz_image.specs.Formats.{header_size};
ghost use Rattle.blz_image.specs.Headers.{header_of, header_at};
ghost use Rattle.blz_image.specs.Views.{header_view};

use crate::format::{Format, class_of, order_of};
use crate::number::word_in;
use blz_constants::elf::{EI_CLASS, EI_DATA, ELFMAG0, ELFMAG1, ELFMAG2, ELFMAG3};
use blz_error::{Error, ErrorKind, Result, Str};
use blz_records::u16_in;

/// What is read of the header of an image (ELF gABI, ELF Header).
#[derive(Clone, Copy)]
pub struct Header {
    /// How the image's records are laid out.
    pub format: Format,
    /// e_type.
    pub file_type: u16,
    /// e_phoff.
    pub phoff: u64,
    /// e_shoff.
    pub shoff: u64,
    /// e_phnum.
    pub phnum: u16,
    /// e_shnum.
    pub shnum: u16,
    /// e_shstrndx.
    pub shstrndx: u16,
}

fn header_at(image: &[u8], format: Format) -> Header
    requires { header_size format.class ≤ length image.now }
    ensures { header_view result ≡ header_at format image.now }
{
    let word = format.class.word();
    Header {
        format,
        file_type: u16_in(image, 16, format.order),
        phoff: word_in(image, 24 + word, format),
        shoff: word_in(image, 24 + 2 * word, format),
        phnum: u16_in(image, 32 + 3 * word, format.order),
        shnum: u16_in(image, 36 + 3 * word, format.order),
        shstrndx: u16_in(image, 38 + 3 * word, format.order),
    }
}

/// The header, after the checks of the identification.
#[tactic(auto, unfolding(crate::specs::Headers::header_of))]
pub fn read_header(image: &[u8]) -> Result<Header>
    ensures { Exactly header_view result (header_of image.now) }
{
    if image.len() < 16 {
        return Err(Error::new(ErrorKind::InvalidData, Str::fixed("short identification")));
    }
    if image[0] != ELFMAG0 || image[1] != ELFMAG1 || image[2] != ELFMAG2 || image[3] != ELFMAG3 {
        return Err(Error::new(ErrorKind::InvalidData, Str::fixed("wrong magic")));
    }
    let Some(class) = class_of(image[EI_CLASS]) else {
        return Err(Error::new(ErrorKind::Unsupported, Str::fixed("class")));
    };
    let Some(order) = order_of(image[EI_DATA]) else {
        return Err(Error::new(ErrorKind::Unsupported, Str::fixed("byte order")));
    };
    if image.len() < class.header_size() {
        return Err(Error::new(ErrorKind::InvalidData, Str::fixed("short header")));
    }
    Ok(header_at(image, Format { class, order }))
}
