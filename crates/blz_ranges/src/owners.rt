//! The owners of items.
ghost use Rattle.std.specs.Prelude.{◌≡◌, ◌≤◌, length, MatchResult};
ghost use Rattle.blz_ranges.specs.Owned.{filled_up};

use std::alloc::AllocError;

/// One owner for each new item.
pub fn own(owners: &mut Vec<usize>, owner: usize, count: usize) -> Result<(), AllocError>
    requires { length owners.old.items ≤ count }
    ensures { MatchResult result (λ _. owners.new.items ≡ filled_up owners.old.items owner count)
        (λ _. owners.new.items ≡ owners.old.items) }
{
    owners.resize(count, owner)
}
