//! The answers of a list of addresses.
ghost use Rattle.std.specs.Prelude.{◌≡◌, IfOk, IfErr, length, map};
ghost use Rattle.blz_model.specs.Part.{Gives};
ghost use Rattle.blz_elf.specs.AnswerView.{answer_view};
ghost use Rattle.blz_bundle.specs.BundleViews.{bundle_view};
ghost use Rattle.blz_resolver.specs.FormatKinds.{IsMemoryOrFormat};
ghost use Rattle.blz_resolver.specs.Scan.{scan_of};

use crate::debug::debug_info::DebugInfo;
use blz_bundle::Bundle;
use blz_bytes::Orders;
use blz_elf::{Answer, ElfParser, FindSymOpts};
use blz_error::Result;
use std::alloc::Global;

/// The answer of each address, in their order. Refused by the first mark that is met: those of the frame, which is
/// read first, also where there are no addresses, and then those of the answers.
pub fn symbolize<'b, O: Orders>(
    alloc: Global,
    orders: &mut O,
    bundle: &Bundle<'b>,
    addrs: &[u64],
    opts: &FindSymOpts,
) -> Result<Vec<Answer<'b>>>
    ensures value { Gives (λ v. map answer_view v.items) result
        (scan_of (bundle_view bundle.now) addrs.now opts.now) }
    ensures one_each { IfOk result (λ v. length v.items ≡ length addrs.now) }
    ensures kinds { IfErr result (λ e. IsMemoryOrFormat e.kind) }
{
    scanned(alloc, orders, bundle, addrs, opts)
}

#[tactic(auto, unfolding(crate::specs::Scan::scan_of))]
fn scanned<'b, O: Orders>(
    alloc: Global,
    orders: &mut O,
    bundle: &Bundle<'b>,
    addrs: &[u64],
    opts: &FindSymOpts,
) -> Result<Vec<Answer<'b>>>
    ensures value { Gives (λ v. map answer_view v.items) result
        (scan_of (bundle_view bundle.now) addrs.now opts.now) }
    ensures one_each { IfOk result (λ v. length v.items ≡ length addrs.now) }
{
    let file = bundle.debug_file();
    let mut parser = ElfParser::from_mem(alloc, file.image, file.module);
    let mut debug = DebugInfo::read(alloc, orders, &mut parser, bundle)?;
    debug.find_syms(alloc, orders, bundle, &mut parser, addrs, opts)
}
