//! Alignment.
ghost use Rattle.std.specs.Prelude.{◌≡◌, ◌<◌, ◌^◌};
ghost use Rattle.std.specs.Int.{next_multiple_of};
ghost use Rattle.blz_bytes.specs.LeastMultiple.{IsLeastMultiple};

/// The least multiple of a number, which is not 0, that is not below a value.
pub fn align_up_u32(value: u32, align_to: u32) -> u32
    requires nonzero { 0 < align_to }
    requires fits { next_multiple_of value align_to < 2 ^ 32 }
    ensures value { result ≡ next_multiple_of value align_to }
    ensures least { IsLeastMultiple value align_to result }
{
    value.next_multiple_of(align_to)
}

/// The least multiple of a number, which is not 0, that is not below a value.
pub fn align_up_usize(value: usize, align_to: usize) -> usize
    requires nonzero { 0 < align_to }
    requires fits { next_multiple_of value align_to < 2 ^ 64 }
    ensures value { result ≡ next_multiple_of value align_to }
    ensures least { IsLeastMultiple value align_to result }
{
    value.next_multiple_of(align_to)
}
