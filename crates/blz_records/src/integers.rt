//! Integers as plain values.
ghost use Rattle.blz_model.specs.Numbers.{field};
ghost use Rattle.std.specs.Int.{cast_signed, w8, w16, w32, w64, w128};

use crate::numbers::{u16_in, u32_in, u64_in, u128_in};
use crate::{ByteOrder, Pod};

impl Pod for u8 {
    const SIZE: usize = 1;

    ghost SIZE = { 1 };

    ghost value = { λ order bytes. field order bytes 0 1 };

    fn read(bytes: &[u8], _order: ByteOrder) -> u8 {
        bytes[0]
    }
}

impl Pod for i8 {
    const SIZE: usize = 1;

    ghost SIZE = { 1 };

    ghost value = { λ order bytes. cast_signed w8 (field order bytes 0 1) };

    fn read(bytes: &[u8], order: ByteOrder) -> i8 {
        u8::read(bytes, order).cast_signed()
    }
}

impl Pod for u16 {
    const SIZE: usize = 2;

    ghost SIZE = { 2 };

    ghost value = { λ order bytes. field order bytes 0 2 };

    fn read(bytes: &[u8], order: ByteOrder) -> u16 {
        u16_in(&bytes[..2], 0, order)
    }
}

impl Pod for i16 {
    const SIZE: usize = 2;

    ghost SIZE = { 2 };

    ghost value = { λ order bytes. cast_signed w16 (field order bytes 0 2) };

    fn read(bytes: &[u8], order: ByteOrder) -> i16 {
        u16::read(bytes, order).cast_signed()
    }
}

impl Pod for u32 {
    const SIZE: usize = 4;

    ghost SIZE = { 4 };

    ghost value = { λ order bytes. field order bytes 0 4 };

    fn read(bytes: &[u8], order: ByteOrder) -> u32 {
        u32_in(&bytes[..4], 0, order)
    }
}

impl Pod for i32 {
    const SIZE: usize = 4;

    ghost SIZE = { 4 };

    ghost value = { λ order bytes. cast_signed w32 (field order bytes 0 4) };

    fn read(bytes: &[u8], order: ByteOrder) -> i32 {
        u32::read(bytes, order).cast_signed()
    }
}

impl Pod for u64 {
    const SIZE: usize = 8;

    ghost SIZE = { 8 };

    ghost value = { λ order bytes. field order bytes 0 8 };

    fn read(bytes: &[u8], order: ByteOrder) -> u64 {
        u64_in(&bytes[..8], 0, order)
    }
}

impl Pod for i64 {
    const SIZE: usize = 8;

    ghost SIZE = { 8 };

    ghost value = { λ order bytes. cast_signed w64 (field order bytes 0 8) };

    fn read(bytes: &[u8], order: ByteOrder) -> i64 {
        u64::read(bytes, order).cast_signed()
    }
}

impl Pod for u128 {
    const SIZE: usize = 16;

    ghost SIZE = { 16 };

    ghost value = { λ order bytes. field order bytes 0 16 };

    fn read(bytes: &[u8], order: ByteOrder) -> u128 {
        u128_in(&bytes[..16], 0, order)
    }
}

impl Pod for i128 {
    const SIZE: usize = 16;

    ghost SIZE = { 16 };

    ghost value = { λ order bytes. cast_signed w128 (field order bytes 0 16) };

    fn read(bytes: &[u8], order: ByteOrder) -> i128 {
        u128::read(bytes, order).cast_signed()
    }
}
