//! A reader that stands at a place of some bytes.
ghost use Rattle.std.specs.Prelude.{◌≡◌, ◌*◌, IfOk, ◌≤◌, ◌+◌, ◌-◌, length, drop};
ghost use Rattle.std.specs.Option.{option_map};
ghost use Rattle.blz_model.specs.LebNumbers.{sleb, uleb};
ghost use Rattle.blz_model.specs.Reads.{number};
ghost use Rattle.blz_bytes.specs.CursorValue.{Reading, Takes};
ghost use Rattle.blz_bytes.specs.Pieces.{piece, zero_ended};
ghost use Rattle.blz_bytes.specs.Records.{values_in};
ghost use Rattle.blz_model.specs.declared.byte_order.ByteOrder.TheVariants.{Little};

use crate::{ReadRaw, piece_at, sleb_at, u8_at, u16_at, u32_at, u64_at, uleb_at, zero_ended_at};
use blz_records::{ByteOrder, Pod};
use std::alloc::{AllocError, Global};
use std::marker::Model;

/// Some bytes, a position in them, and the order in which their numbers are read.
#[derive(Drop)]
pub struct Cursor<'d> {
    bytes: &'d [u8],
    position: usize,
    order: ByteOrder,
}

impl<'d> Model for Cursor<'d> {
    ghost use Rattle.std.specs.Prelude.{◌≤◌, length};
    ghost use Rattle.blz_bytes.specs.CursorValue.{Reading};

    ghost Value = { Reading };

    ghost view = { λ c. record { bytes = c.bytes.now; position = c.position; order = c.order } };

    ghost invariant = { λ c. c.position ≤ length c.bytes.now };
}

impl<'d> Cursor<'d> {
    /// A cursor at the first byte, for numbers with the least byte first.
    pub fn new(bytes: &'d [u8]) -> Cursor<'d>
        ensures { result ≡ record { bytes = bytes.entry.now; position = 0; order = Little } }
    {
        Cursor::with_order(bytes, ByteOrder::Little)
    }

    /// A cursor at the first byte, for numbers of an order.
    pub fn with_order(bytes: &'d [u8], order: ByteOrder) -> Cursor<'d>
        ensures { result ≡ record { bytes = bytes.entry.now; position = 0; order = order } }
    {
        Cursor {
            bytes,
            position: 0,
            order,
        }
    }

    /// The number of bytes that were read.
    pub fn position(&self) -> usize
        ensures { result ≡ self.now.position }
    {
        self.position
    }

    /// The order in which numbers are read.
    pub fn order(&self) -> ByteOrder
        ensures { result ≡ self.now.order }
    {
        self.order
    }

    /// The bytes from the position on.
    pub fn rest(&self) -> &'d [u8]
        ensures { result.now ≡ drop self.now.position self.now.bytes }
    {
        &self.bytes[self.position..]
    }

    /// The next `N` bytes, which stay to be read; none where fewer are left.
    pub fn peek_array<const N: usize>(&self) -> Option<[u8; N]>
        ensures { option_map (λ r. r.0) (piece N self.now.bytes self.now.position) ≡ result }
    {
        let (taken, _) = piece_at(self.bytes, self.position, N)?;
        taken.try_into().ok()
    }

    /// The next `N` bytes; none where fewer are left.
    pub fn read_array<const N: usize>(&mut self) -> Option<[u8; N]>
        ensures { Takes (piece N) self.old result self.new }
    {
        let taken = self.peek_array()?;
        self.position += N;
        Some(taken)
    }
}

impl<'d> ReadRaw<'d> for Cursor<'d> {
    ghost reading = { λ c. c };

    fn ensure(&self, len: usize) -> Option<()> {
        if self.bytes.len() - self.position < len {
            return None;
        }
        Some(())
    }

    fn advance(&mut self, cnt: usize) -> Option<()> {
        self.ensure(cnt)?;
        self.position += cnt;
        Some(())
    }

    fn align(&mut self, align_to: usize) -> Option<()> {
        let next = self.position.checked_next_multiple_of(align_to)?;
        if next > self.bytes.len() {
            return None;
        }
        self.position = next;
        Some(())
    }

    fn read_slice(&mut self, len: usize) -> Option<&'d [u8]> {
        let (taken, next) = piece_at(self.bytes, self.position, len)?;
        self.position = next;
        Some(taken)
    }

    fn read_cstr(&mut self) -> Option<&'d [u8]> {
        let (text, next) = zero_ended_at(self.bytes, self.position)?;
        self.position = next;
        Some(text)
    }

    fn read_pod<T: Pod>(&mut self) -> Option<T> {
        let (taken, next) = piece_at(self.bytes, self.position, T::SIZE)?;
        self.position = next;
        Some(T::read(taken, self.order))
    }

    fn read_pods<T: Pod>(
        &mut self,
        alloc: Global,
        count: usize,
    ) -> Result<Option<Vec<T>>, AllocError> {
        let left = self.bytes.len() - self.position;
        let Some(len) = count.checked_mul(T::SIZE) else {
            return Ok(None);
        };
        if len > left {
            return Ok(None);
        }
        let next = self.position + len;
        let taken = &self.bytes[self.position..next];
        let records = records_in(alloc, taken, count, self.order)?;
        self.position = next;
        Ok(Some(records))
    }

    fn read_u8(&mut self) -> Option<u8> {
        let (value, next) = u8_at(self.bytes, self.position)?;
        self.position = next;
        Some(value)
    }

    fn read_u16(&mut self) -> Option<u16> {
        let (value, next) = u16_at(self.bytes, self.position, self.order)?;
        self.position = next;
        Some(value)
    }

    fn read_u32(&mut self) -> Option<u32> {
        let (value, next) = u32_at(self.bytes, self.position, self.order)?;
        self.position = next;
        Some(value)
    }

    fn read_u64(&mut self) -> Option<u64> {
        let (value, next) = u64_at(self.bytes, self.position, self.order)?;
        self.position = next;
        Some(value)
    }

    fn read_u64_leb128(&mut self) -> Option<u64> {
        let (value, next) = uleb_at(self.bytes, self.position)?;
        self.position = next;
        Some(value)
    }

    fn read_i64_leb128(&mut self) -> Option<i64> {
        let (value, next) = sleb_at(self.bytes, self.position)?;
        self.position = next;
        Some(value)
    }
}

// the values that `count` pieces spell, one after another
fn records_in<T: Pod>(
    alloc: Global,
    bytes: &[u8],
    count: usize,
    order: ByteOrder,
) -> Result<Vec<T>, AllocError>
    requires { length bytes.now ≡ count * T.SIZE }
    ensures { IfOk result (λ v. v.items ≡ values_in (T.value order) T.SIZE count bytes.now) }
{
    let mut records = Vec::with_capacity(alloc, count)?;
    let mut at = 0;
    for _ in 0..count {
        records.push(T::read(&bytes[at..], order))?;
        at += T::SIZE;
    }
    Ok(records)
}
