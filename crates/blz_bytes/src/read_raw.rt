//! The reads of a source of bytes.
ghost use Rattle.std.specs.Prelude.{◌≡◌, ◌<◌, ◌+◌, length, nat_le, is_some};
ghost use Rattle.std.specs.Option.{option_map};
ghost use Rattle.blz_model.specs.LebNumbers.{sleb, uleb};
ghost use Rattle.blz_model.specs.Reads.{number};
ghost use Rattle.blz_bytes.specs.CursorValue.{Reading, Takes, TakesList};
ghost use Rattle.blz_bytes.specs.Pieces.{aligned, past, piece, pod, zero_ended};
ghost use Rattle.blz_bytes.specs.Records.{pods};

use blz_records::Pod;
use std::alloc::{AllocError, Global};

/// Reads that give what stands at a position and move behind it. After None the position is as before.
pub trait ReadRaw<'d> {
    /// The bytes, the position and the order of the numbers.
    ghost reading: { Self → Reading };

    /// Whether at least `len` bytes are left.
    fn ensure(&self, len: usize) -> Option<()>
        ensures { is_some result
            ≡ nat_le ((reading self.now).position + len) (length (reading self.now).bytes) };

    /// Passes over `cnt` bytes; none where fewer are left.
    fn advance(&mut self, cnt: usize) -> Option<()>
        ensures { Takes (past cnt) (reading self.old) result (reading self.new) };

    /// Passes on to the next multiple of a number that is not 0; none where that is past the end.
    fn align(&mut self, align_to: usize) -> Option<()>
        requires { 0 < align_to }
        ensures { Takes (aligned align_to) (reading self.old) result (reading self.new) };

    /// The next `len` bytes; none where fewer are left.
    fn read_slice(&mut self, len: usize) -> Option<&'d [u8]>
        ensures { Takes (piece len) (reading self.old) (option_map (λ s. s.now) result)
            (reading self.new) };

    /// The bytes before the next zero, which is passed over too; none where no zero is left.
    fn read_cstr(&mut self) -> Option<&'d [u8]>
        ensures { Takes zero_ended (reading self.old) (option_map (λ s. s.now) result)
            (reading self.new) };

    /// A plain value; none where fewer than its bytes are left.
    fn read_pod<T: Pod>(&mut self) -> Option<T>
        ensures { Takes (pod T.value T.SIZE (reading self.old).order) (reading self.old) result
            (reading self.new) };

    /// `count` plain values; none where fewer than their bytes are left.
    fn read_pods<T: Pod>(
        &mut self,
        alloc: Global,
        count: usize,
    ) -> Result<Option<Vec<T>>, AllocError>
        ensures { TakesList (pods T.value T.SIZE count (reading self.old).order)
            (reading self.old) result (reading self.new) };

    /// A byte; none at the end.
    fn read_u8(&mut self) -> Option<u8>
        ensures { Takes (number (reading self.old).order 1) (reading self.old) result
            (reading self.new) };

    /// A number of two bytes; none where fewer are left.
    fn read_u16(&mut self) -> Option<u16>
        ensures { Takes (number (reading self.old).order 2) (reading self.old) result
            (reading self.new) };

    /// A number of four bytes; none where fewer are left.
    fn read_u32(&mut self) -> Option<u32>
        ensures { Takes (number (reading self.old).order 4) (reading self.old) result
            (reading self.new) };

    /// A number of eight bytes; none where fewer are left.
    fn read_u64(&mut self) -> Option<u64>
        ensures { Takes (number (reading self.old).order 8) (reading self.old) result
            (reading self.new) };

    /// An unsigned LEB128 number (DWARF 5 section 7.6); none where it does not end within ten bytes or the slice, or is
    /// 2 ^ 64 or more.
    fn read_u64_leb128(&mut self) -> Option<u64>
        ensures { Takes uleb (reading self.old) result (reading self.new) };

    /// A signed LEB128 number; none where it does not end within ten bytes or the slice, or does not fit.
    fn read_i64_leb128(&mut self) -> Option<i64>
        ensures { Takes sleb (reading self.old) result (reading self.new) };
}
