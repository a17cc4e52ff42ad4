//! The distinct addresses of stacks.
ghost use Rattle.std.specs.Prelude.{◌≡◌, IfOk, nat_eq};
ghost use Rattle.blz_fold.specs.AddressStacks.{addresses_in};
ghost use Rattle.blz_fold.specs.Counted.{distinct};

use crate::Stack;
use indexmap::IndexSet;
use std::alloc::{AllocError, Global};

/// The distinct addresses, in the order in which they come first.
pub(crate) fn distinct_addresses(
    alloc: Global,
    stacks: &[Stack],
) -> Result<IndexSet<u64>, AllocError>
    ensures { IfOk result (λ s. s.keys ≡ distinct nat_eq (addresses_in stacks.now)) }
{
    let mut seen = IndexSet::new(alloc);
    for stack in stacks {
        for addr in stack.addresses.as_slice() {
            seen.insert(*addr)?;
        }
    }
    Ok(seen)
}
