//! What stands at a place of some bytes, with the place behind it.
ghost use Rattle.std.specs.Prelude.{◌≡◌, ◌≤◌, ◌<◌, ◌+◌, ◌^◌, IfSome, length};
ghost use Rattle.std.specs.Option.{option_map};
ghost use Rattle.blz_model.specs.Reads.{number};
ghost use Rattle.blz_bytes.specs.Pieces.{byte, nth_place, piece, zero_ended};

use blz_records::{ByteOrder, u16_in, u32_in, u64_in};
use memchr::memchr;

/// The next `len` bytes; none where fewer are left.
pub fn piece_at(bytes: &[u8], at: usize, len: usize) -> Option<(&[u8], usize)>
    ensures value { option_map (λ r. (r.0.now, r.1)) result ≡ piece len bytes.now at }
    ensures within { IfSome result (λ r. (r.1 ≡ at + len) × (r.1 ≤ length bytes.now)) }
{
    if at > bytes.len() || bytes.len() - at < len {
        return None;
    }
    Some((&bytes[at..at + len], at + len))
}

/// The byte at a place.
pub fn u8_at(bytes: &[u8], at: usize) -> Option<(u8, usize)>
    ensures value { result ≡ byte bytes.now at }
    ensures within { IfSome result (λ r. (r.1 ≡ at + 1) × (r.1 ≤ length bytes.now)) }
{
    if at < bytes.len() {
        Some((bytes[at], at + 1))
    } else {
        None
    }
}

/// The number of two bytes.
pub fn u16_at(bytes: &[u8], at: usize, order: ByteOrder) -> Option<(u16, usize)>
    ensures value { result ≡ number order 2 bytes.now at }
    ensures within { IfSome result (λ r. (r.1 ≡ at + 2) × (r.1 ≤ length bytes.now)) }
{
    if at > bytes.len() || bytes.len() - at < 2 {
        return None;
    }
    Some((u16_in(bytes, at, order), at + 2))
}

/// The number of four bytes.
pub fn u32_at(bytes: &[u8], at: usize, order: ByteOrder) -> Option<(u32, usize)>
    ensures value { result ≡ number order 4 bytes.now at }
    ensures within { IfSome result (λ r. (r.1 ≡ at + 4) × (r.1 ≤ length bytes.now)) }
{
    if at > bytes.len() || bytes.len() - at < 4 {
        return None;
    }
    Some((u32_in(bytes, at, order), at + 4))
}

/// The number of eight bytes.
pub fn u64_at(bytes: &[u8], at: usize, order: ByteOrder) -> Option<(u64, usize)>
    ensures value { result ≡ number order 8 bytes.now at }
    ensures within { IfSome result (λ r. (r.1 ≡ at + 8) × (r.1 ≤ length bytes.now)) }
{
    if at > bytes.len() || bytes.len() - at < 8 {
        return None;
    }
    Some((u64_in(bytes, at, order), at + 8))
}

// the place of the byte with i bytes above it in a number of `width` bytes
fn nth_place(order: ByteOrder, at: usize, width: usize, i: usize) -> usize
    requires { (i < width) × (at + width < 2 ^ 64) }
    ensures { result ≡ nth_place order at width i }
{
    match order {
        ByteOrder::Little => at + (width - 1 - i),
        ByteOrder::Big => at + i,
    }
}

/// The number of `width` bytes, at most 8.
pub fn number_at(bytes: &[u8], at: usize, width: usize, order: ByteOrder) -> Option<(u64, usize)>
    requires { width ≤ 8 }
    ensures value { result ≡ number order width bytes.now at }
    ensures within { IfSome result (λ r. (r.1 ≡ at + width) × (r.1 ≤ length bytes.now)) }
{
    if at > bytes.len() || bytes.len() - at < width {
        return None;
    }
    let mut value = 0;
    for i in 0..width {
        value = value * 256 + u64::from(bytes[nth_place(order, at, width, i)]);
    }
    Some((value, at + width))
}

/// The text before the next zero byte, and the place behind that byte.
pub fn zero_ended_at(bytes: &[u8], at: usize) -> Option<(&[u8], usize)>
    ensures value { option_map (λ r. (r.0.now, r.1)) result ≡ zero_ended bytes.now at }
    ensures within { IfSome result (λ r. (at < r.1) × (r.1 ≤ length bytes.now)) }
{
    if at > bytes.len() {
        return None;
    }
    let rest = &bytes[at..];
    let len = memchr(0, rest)?;
    Some((&rest[..len], at + len + 1))
}
