//! The addresses of names.
ghost use Rattle.std.specs.Prelude.{◌≡◌, true, IfErr, IfOk, map, string_bytes};
ghost use Rattle.blz_elf.specs.OwnedInfos.{owned_view};
ghost use Rattle.blz_error.specs.declared.kind.ErrorKind.TheVariants.{OutOfMemory};
ghost use Rattle.blz_model.specs.Part.{Gives};
ghost use Rattle.blz_resolver.specs.BundleViews.{bundle_view};
ghost use Rattle.blz_resolver.specs.FormatKinds.{IsMemoryOrFormat};
ghost use Rattle.blz_resolver.specs.FunctionNames.{listing_in};
ghost use Rattle.blz_resolver.specs.Resolver.{has_debug};
ghost use Rattle.blz_listings.specs.FindTexts.{asking, find_text, infos_text, listed_text, names_text};

use crate::find_texts::{push_info, push_name};
use crate::kept_infos::KeptInfos;
use crate::sought::Sought;
use blz_bytes::{Orders, Room};
use blz_elf::{FindAddrOpts, SymInfoBuf, SymType};
use blz_error::{Error, ErrorKind, Result, Str};
use blz_resolver::{Bundle, ElfResolver};
use std::alloc::{AllocError, Global};

/// The text of the addresses of names, in the order of the names; without a name, of all functions that have one, which
/// take of a room by the bytes of the debug file. Refused by the first mark that the search meets.
pub fn find_text<O: Orders>(
    alloc: Global,
    orders: &mut O,
    bundle: &Bundle<'_>,
    sought: &Sought<'_>,
) -> Result<Vec<u8>>
    ensures value { Gives (λ v. v.items) result (find_text sought.now.file_offset
        (map string_bytes sought.now.names.now) (bundle_view bundle.now)) }
    ensures kinds { IfErr result (λ e. IsMemoryOrFormat e.kind) }
{
    found_text(alloc, orders, bundle, sought)
}

#[tactic(auto, unfolding(crate::specs::FindTexts::find_text))]
fn found_text<O: Orders>(
    alloc: Global,
    orders: &mut O,
    bundle: &Bundle<'_>,
    sought: &Sought<'_>,
) -> Result<Vec<u8>>
    ensures { Gives (λ v. v.items) result (find_text sought.now.file_offset
        (map string_bytes sought.now.names.now) (bundle_view bundle.now)) }
{
    let mut resolver = ElfResolver::from_bundle(alloc, orders, bundle)?;
    let opts = asking(sought.file_offset);
    if sought.names.is_empty() {
        let room = Room::of(bundle.debug_file().image.len() as u64);
        listed_text(alloc, orders, &mut resolver, &opts, room)
    } else {
        names_text(alloc, orders, &mut resolver, &opts, sought.names)
    }
}

// Functions and variables are asked for.
fn asking(file_offset: bool) -> FindAddrOpts
    ensures { result ≡ asking file_offset }
{
    FindAddrOpts {
        file_offset,
        sym_type: SymType::Undefined,
    }
}

// Each name in turn.
fn names_text<O: Orders>(
    alloc: Global,
    orders: &mut O,
    resolver: &mut ElfResolver<'_>,
    opts: &FindAddrOpts,
    names: &[String],
) -> Result<Vec<u8>>
    requires { has_debug resolver.old ≡ true }
    ensures { Gives (λ v. v.items) result
        (names_text opts.now resolver.old.images (map string_bytes names.now)) }
{
    let mut out = Vec::new(alloc);
    for name in names {
        let infos = resolver.find_addr(alloc, orders, name.as_str(), opts)?;
        push_name(&mut out, name.as_str(), infos.as_slice(), opts.file_offset)?;
    }
    Ok(out)
}

// All that is listed.
fn listed_text<O: Orders>(
    alloc: Global,
    orders: &mut O,
    resolver: &mut ElfResolver<'_>,
    opts: &FindAddrOpts,
    room: Room,
) -> Result<Vec<u8>>
    ensures { Gives (λ v. v.items) result (listed_text opts.now.file_offset
        (listing_in resolver.old.images (has_debug resolver.old) opts.now)) }
{
    let mut all = KeptInfos::new(alloc, room);
    resolver.for_each(alloc, orders, opts, &mut all)?;
    if all.is_full() {
        return Err(no_memory());
    }
    Ok(infos_text(alloc, all.infos(), opts.file_offset)?)
}

fn infos_text(
    alloc: Global,
    infos: &[SymInfoBuf],
    asked: bool,
) -> std::result::Result<Vec<u8>, AllocError>
    ensures { IfOk result (λ v. v.items ≡ infos_text asked (map owned_view infos.now)) }
{
    let mut out = Vec::new(alloc);
    for info in infos {
        push_info(&mut out, &info.as_info(), asked)?;
    }
    Ok(out)
}

fn no_memory() -> Error
    ensures { result.kind ≡ OutOfMemory }
{
    Error::new(ErrorKind::OutOfMemory, Str::fixed("out of memory"))
}
