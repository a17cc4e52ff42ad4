//! Names that are asked of a resolver.
ghost use Rattle.std.specs.Prelude.{◌≡◌, map, IfOk};
ghost use Rattle.blz_model.specs.Part.{Gives, all_good};
ghost use Rattle.blz_bundle.specs.BundleViews.{bundle_view};
ghost use Rattle.blz_resolver.specs.Resolver.{SameBundle, has_debug};
ghost use Rattle.blz_inspector.specs.Names.{framed_if, infos_named, with_places};
ghost use Rattle.blz_inspector.specs.WarmEntries.{IsWarmIf};

use crate::found::{Found, FoundInfos};
use blz_bundle::Bundle;
use blz_bytes::Orders;
use blz_elf::{FindAddrOpts, SymInfos};
use blz_error::Result;
use blz_records::SymType;
use blz_resolver::{ElfResolver, Warm};
use std::alloc::{AllocError, Global};

/// Symbols of all types, with their places in the file.
pub fn with_places() -> FindAddrOpts
    ensures { result ≡ with_places }
{
    FindAddrOpts {
        file_offset: true,
        sym_type: SymType::Undefined,
    }
}

/// A resolver of a bundle, of what was read of it where something was.
pub fn resolver_of<'b, O: Orders>(
    alloc: Global,
    orders: &mut O,
    bundle: &Bundle<'b>,
    debug_syms: bool,
    warm: Option<Warm>,
) -> Result<ElfResolver<'b>>
    requires { IsWarmIf (bundle_view bundle.now) debug_syms warm }
    ensures frame { Gives (λ _. tt) result (framed_if debug_syms (bundle_view bundle.now)) }
    ensures images { IfOk result (λ r. r.images ≡ bundle_view bundle.now) }
    ensures has_debug { IfOk result (λ r. has_debug r ≡ debug_syms) }
{
    match warm {
        Some(warm) => Ok(ElfResolver::from_warm(alloc, bundle, warm)),
        None => cold_resolver(alloc, orders, bundle, debug_syms),
    }
}

fn cold_resolver<'b, O: Orders>(
    alloc: Global,
    orders: &mut O,
    bundle: &Bundle<'b>,
    debug_syms: bool,
) -> Result<ElfResolver<'b>>
    ensures frame { Gives (λ _. tt) result (framed_if debug_syms (bundle_view bundle.now)) }
    ensures images { IfOk result (λ r. r.images ≡ bundle_view bundle.now) }
    ensures has_debug { IfOk result (λ r. has_debug r ≡ debug_syms) }
{
    if debug_syms {
        ElfResolver::from_bundle(alloc, orders, bundle)
    } else {
        Ok(ElfResolver::from_bundle_elf(alloc, bundle))
    }
}

// The same infos, with texts of their own.
fn owned(alloc: Global, infos: &SymInfos<'_>) -> std::result::Result<FoundInfos, AllocError>
    ensures { IfOk result (λ f. f ≡ infos.now) }
{
    let shown = infos.as_slice();
    let mut items = Vec::with_capacity(alloc, shown.len())?;
    for info in shown {
        items.push(info.to_owned(alloc)?)?;
    }
    Ok(FoundInfos::from_vec(items))
}

/// The infos of each name, in the order of the names.
pub fn found_of<O: Orders>(
    alloc: Global,
    orders: &mut O,
    resolver: &mut ElfResolver<'_>,
    names: &[String],
) -> Result<Found>
    ensures value { Gives (λ f. f) result
        (all_good (map (infos_named resolver.old.images (has_debug resolver.old)) names.now)) }
    ensures same { SameBundle resolver.old resolver.new }
{
    let opts = with_places();
    let mut lists = Vec::with_capacity(alloc, names.len())?;
    for name in names {
        let infos = resolver.find_addr(alloc, orders, name.as_str(), &opts)?;
        lists.push(owned(alloc, &infos)?)?;
    }
    Ok(Found::from_vec(lists))
}
