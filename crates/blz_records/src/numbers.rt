//! Numbers of a fixed width at a place of some bytes (ELF gABI, Data Encoding).
ghost use Rattle.std.specs.Prelude.{◌≡◌, ◌≤◌, ◌+◌, length};
ghost use Rattle.blz_model.specs.Numbers.{field};

use crate::ByteOrder;

/// The number of two bytes.
pub fn u16_in(bytes: &[u8], at: usize, order: ByteOrder) -> u16
    requires { at + 2 ≤ length bytes.now }
    ensures { result ≡ field order bytes.now at 2 }
{
    let taken = [bytes[at], bytes[at + 1]];
    match order {
        ByteOrder::Little => u16::from_le_bytes(taken),
        ByteOrder::Big => u16::from_be_bytes(taken),
    }
}

/// The number of four bytes.
pub fn u32_in(bytes: &[u8], at: usize, order: ByteOrder) -> u32
    requires { at + 4 ≤ length bytes.now }
    ensures { result ≡ field order bytes.now at 4 }
{
    let taken = [bytes[at], bytes[at + 1], bytes[at + 2], bytes[at + 3]];
    match order {
        ByteOrder::Little => u32::from_le_bytes(taken),
        ByteOrder::Big => u32::from_be_bytes(taken),
    }
}

/// The number of eight bytes.
pub fn u64_in(bytes: &[u8], at: usize, order: ByteOrder) -> u64
    requires { at + 8 ≤ length bytes.now }
    ensures { result ≡ field order bytes.now at 8 }
{
    let taken = [
        bytes[at],
        bytes[at + 1],
        bytes[at + 2],
        bytes[at + 3],
        bytes[at + 4],
        bytes[at + 5],
        bytes[at + 6],
        bytes[at + 7],
    ];
    match order {
        ByteOrder::Little => u64::from_le_bytes(taken),
        ByteOrder::Big => u64::from_be_bytes(taken),
    }
}

/// The number of sixteen bytes.
pub(crate) fn u128_in(bytes: &[u8], at: usize, order: ByteOrder) -> u128
    requires { at + 16 ≤ length bytes.now }
    ensures { result ≡ field order bytes.now at 16 }
{
    let first = u128::from(u64_in(bytes, at, order));
    let second = u128::from(u64_in(bytes, at + 8, order));
    match order {
        ByteOrder::Little => first + second * (1 << 64),
        ByteOrder::Big => second + first * (1 << 64),
    }
}
