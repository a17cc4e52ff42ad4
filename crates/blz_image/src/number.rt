//! The words of records that lie in an image.
ghost use Rattle.std.specs.Prelude.{◌≡◌, ◌+◌, ◌≤◌, length};
ghost use Rattle.blz_image.specs.Formats.{word, word_at};

use crate::format::{Class, Format};
use blz_records::{u32_in, u64_in};

/// The number of a word, as wide as an address.
pub fn word_in(image: &[u8], at: usize, format: Format) -> u64
    requires { at + word format.class ≤ length image.now }
    ensures { result ≡ word_at format image.now at }
{
    match format.class {
        Class::Elf32 => u64::from(u32_in(image, at, format.order)),
        Class::Elf64 => u64_in(image, at, format.order),
    }
}
