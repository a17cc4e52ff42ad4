//! Parts of an image, by their places.
ghost use Rattle.std.specs.Prelude.{◌≡◌, ◌+◌, ◌*◌, ◌<◌, ◌≤◌, ◌^◌, nat_le};

use crate::format::Format;

/// Bytes of an image.
#[derive(Clone, Copy)]
pub struct Span {
    /// Where they begin.
    pub at: usize,
    /// How many they are.
    pub len: usize,
}

/// Records of an image, one after another.
#[derive(Clone, Copy)]
pub struct Rows {
    /// How they are laid out.
    pub format: Format,
    /// Where the first begins.
    pub at: usize,
    /// How many they are.
    pub count: usize,
}

/// Whether some records of a size lie in so many bytes.
pub fn lie_inside(len: usize, at: u64, size: usize, count: u64) -> bool
    requires { 0 < size }
    ensures { result ≡ nat_le (at + size * count) len }
{
    let len = len as u64;
    at <= len && count <= (len - at) / size as u64
}

/// Where the record at an index begins.
pub fn place_of(at: usize, size: usize, count: usize, index: usize, len: usize) -> usize
    requires inside { at + size * count ≤ len }
    requires index { index < count }
    ensures value { result ≡ at + size * index }
    ensures fits { result + size ≤ len }
{
    at + size * index
}
