//! Folding stacks of addresses.
ghost use Rattle.std.specs.Prelude.{◌≡◌, ◌<◌, ◌^◌, IfErr, IfOk};
ghost use Rattle.std.specs.Str.{bytes_eq};
ghost use Rattle.blz_model.specs.Part.{Gives};
ghost use Rattle.blz_resolver.specs.BundleViews.{bundle_view};
ghost use Rattle.blz_resolver.specs.FormatKinds.{IsMemoryOrFormat};
ghost use Rattle.blz_fold.specs.AddressStacks.{count_total};
ghost use Rattle.blz_fold.specs.Counted.{AddUp, total};
ghost use Rattle.blz_fold.specs.Naming.{fold_of};

use crate::named_lines::NamedLines;
use crate::{Folded, Stacks};
use blz_bytes::Orders;
use blz_error::Result;
use blz_resolver::Bundle;
use std::alloc::Global;

/// Folds stacks of addresses into stacks of names: the names of a stack are those of its addresses, each with the
/// inlined calls behind it, and `??` where there is no name. Refused by the first mark that the scan over all addresses
/// meets: the frame first, then stack by stack.
pub fn fold<O: Orders>(
    alloc: Global,
    orders: &mut O,
    bundle: &Bundle<'_>,
    stacks: &Stacks,
) -> Result<Folded>
    requires { count_total stacks.now < 2 ^ 64 }
    ensures value { Gives (λ folded. folded) result (fold_of (bundle_view bundle.now) stacks.now) }

    // No count is lost.
    ensures total { IfOk result (λ folded. total folded.lines ≡ count_total stacks.now) }
    ensures add_up { IfOk result (λ folded. AddUp bytes_eq folded.nodes) }

    ensures kinds { IfErr result (λ e. IsMemoryOrFormat e.kind) }
{
    let named = NamedLines::of(alloc, orders, bundle, stacks)?;
    Ok(named.folded(alloc)?)
}
