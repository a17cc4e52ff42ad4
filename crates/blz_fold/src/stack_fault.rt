//! Why stacks are refused.

use std::alloc::{AllocError, AllocFailed};

/// Why a text is not one of stacks.
#[derive(Clone, Copy, Debug, PartialEq, Eq)]
pub enum StackFault {
    /// This line, counted from 1, is the first that is not of its form.
    Line(u64),
    /// With this line the sum of the counts passes 2^64 - 1.
    Total(u64),
    /// There was no memory.
    Memory,
}

impl From<AllocError> for StackFault {
    ghost use Rattle.std.specs.Prelude.{◌≡◌};
    ghost use Rattle.blz_fold.specs.declared.stack_fault.StackFault.TheVariants.{Memory};

    ghost from_gives = { λ _ fault. fault ≡ Memory };

    fn from(_: AllocError) -> StackFault {
        StackFault::Memory
    }
}

impl<T: Drop> From<AllocFailed<T>> for StackFault {
    ghost use Rattle.std.specs.Prelude.{◌≡◌};
    ghost use Rattle.blz_fold.specs.declared.stack_fault.StackFault.TheVariants.{Memory};

    ghost from_gives = { λ _ fault. fault ≡ Memory };

    fn from(_: AllocFailed<T>) -> StackFault {
        StackFault::Memory
    }
}
