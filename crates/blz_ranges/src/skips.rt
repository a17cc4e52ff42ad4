//! Steps back over entries that end too low.
ghost use Rattle.std.specs.Prelude.{◌≡◌, ◌+◌, ◌<◌, ◌≤◌, ◌^◌, ℕ, length, Some, Option, IfOk, IfSome};
ghost use Rattle.std.specs.List.{slice_get};
ghost use Rattle.blz_ranges.specs.Skipping.{skip_before, IsSkip, AreSkips, AreFirstSkips};

use crate::ordered::Ordered;
use std::alloc::{AllocError, Global};

/// The entries from `to` up to the one that this stands at end at `top` or below. These stretches are the subtrees of
/// binary trees whose nodes stand behind their children, so few of them lie before any entry.
#[derive(Clone, Copy)]
pub struct Skip {
    pub to: usize,
    pub top: u64,
}

fn skip_before(skips: &[Skip], at: usize) -> Option<Skip>
    ensures { result ≡ skip_before skips.now at }
{
    if at == 0 {
        return None;
    }
    skips.get(at - 1).copied()
}

/// The step over an entry alone, or where the two steps before it are of one length over these as well.
fn next_skip(order: &[Ordered], skips: &[Skip], end: u64) -> Skip
    requires entry { (e : Ordered) → slice_get order.now (length skips.now) ≡ Some e
        → e.span.end ≡ end }
    requires skips { AreFirstSkips order.now skips.now }
    ensures { IsSkip order.now (length skips.now) result }
{
    let at = skips.len();
    let alone = Skip { to: at, top: end };
    let Some(near) = skip_before(skips, at) else {
        return alone;
    };
    let Some(far) = skip_before(skips, near.to) else {
        return alone;
    };
    if at - near.to == near.to - far.to {
        Skip {
            to: far.to,
            top: end.max(near.top).max(far.top),
        }
    } else {
        alone
    }
}

/// The steps of all entries.
pub fn skips_of(alloc: Global, order: &[Ordered]) -> Result<Vec<Skip>, AllocError>
    ensures { IfOk result (λ v. AreSkips order.now v.items) }
{
    let mut skips = Vec::with_capacity(alloc, order.len())?;
    for entry in order {
        let skip = next_skip(order, skips.as_slice(), entry.span.end);
        skips.push(skip)?;
    }
    Ok(skips)
}
