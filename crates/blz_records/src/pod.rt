//! Plain values that are read from bytes.
ghost use Rattle.std.specs.Prelude.{◌≡◌, ◌≤◌, ℕ, List, length, take};
ghost use Rattle.blz_model.specs.declared.byte_order.ByteOrder.{ByteOrder};
ghost use Rattle.blz_model.specs.declared.byte_order.ByteOrder.TheVariants.{Little, Big};

use crate::ByteOrder;

/// A plain value of a fixed number of bytes, of which it is a function.
pub trait Pod: Copy {
    /// The number of bytes.
    const SIZE: usize;

    ghost SIZE: { ℕ };

    /// The value that these bytes spell.
    ghost value: { ByteOrder → List ℕ → Self };

    /// The value of the first `SIZE` bytes.
    fn read(bytes: &[u8], order: ByteOrder) -> Self
        requires { SIZE ≤ length bytes.now }
        ensures { result ≡ value order (take SIZE bytes.now) };

    /// The value of the first `SIZE` bytes, each number with its least byte first.
    final fn read_le(bytes: &[u8]) -> Self
        requires { SIZE ≤ length bytes.now }
        ensures { result ≡ value Little (take SIZE bytes.now) }
    {
        Self::read(bytes, ByteOrder::Little)
    }

    /// The value of the first `SIZE` bytes, each number with its greatest byte first.
    final fn read_be(bytes: &[u8]) -> Self
        requires { SIZE ≤ length bytes.now }
        ensures { result ≡ value Big (take SIZE bytes.now) }
    {
        Self::read(bytes, ByteOrder::Big)
    }
}
