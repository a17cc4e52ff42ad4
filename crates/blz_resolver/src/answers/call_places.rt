//! The places of a function and of the calls inlined in it.
ghost use Rattle.std.specs.Prelude.{◌≡◌, true, false, is_some, map, None, IfOk};
ghost use Rattle.std.specs.Option.{option_map};
ghost use Rattle.blz_elf.specs.CallViews as shown;
ghost use Rattle.blz_line.specs.Lookups.{location_view};
ghost use Rattle.blz_reader.specs.SiteViews.{inlined_view};
ghost use Rattle.blz_resolver.specs.CallFrames.{shown_site, site_of_next, moved, no_places, one_place, one_place_if, frames};
ghost use Rattle.blz_resolver.specs.PlaceViews.{places_view};

use crate::answers::code_info::code_info;
use blz_elf::{CodeInfo, InlinedFn, InlinedFns};
use blz_index::{InlinedSite, InlinedSites};
use blz_line::Location;
use std::alloc::{AllocError, Global};

/// Where a function stands in the sources, and the calls that were inlined in it.
#[derive(Drop)]
pub(crate) struct CallPlaces<'b> {
    pub code_info: Option<CodeInfo<'b>>,
    pub inlined: InlinedFns<'b>,
}

fn code_info_if<'b>(location: Option<Location<'b>>) -> Option<CodeInfo<'b>>
    ensures { option_map shown.site_view result
        ≡ option_map shown_site (option_map location_view location.entry) }
{
    match location {
        Some(location) => Some(code_info(location)),
        None => None,
    }
}

// Calls of which each has the place from which the next was made, and the place from which the first was made.
#[derive(Drop)]
struct MovedCalls<'b> {
    first: Option<Location<'b>>,
    inlined: Vec<InlinedFn<'b>>,
}

fn moved<'b>(
    alloc: Global,
    calls: Vec<InlinedSite<'b>>,
    last: Option<Location<'b>>,
) -> Result<MovedCalls<'b>, AllocError>
    ensures first { IfOk result (λ m. option_map location_view m.first ≡ site_of_next
        (map inlined_view calls.entry.items) (option_map location_view last.entry)) }
    ensures inlined { IfOk result (λ m. map shown.inlined_view m.inlined.items
        ≡ moved (map inlined_view calls.entry.items) (option_map location_view last.entry)) }
{
    let mut inlined = Vec::with_capacity(alloc, calls.len())?;
    let mut site = last;
    let mut rest = calls;
    while let Some(call) = rest.pop() {
        inlined.push(InlinedFn {
            name: call.name,
            code_info: code_info_if(site),
        })?;
        site = call.site;
    }
    inlined.reverse();
    Ok(MovedCalls {
        first: site,
        inlined,
    })
}

// Whether the place from which the outermost call was made is known.
fn is_left(calls: &[InlinedSite<'_>]) -> bool
    ensures { result ≡ is_some (site_of_next (map inlined_view calls.now) None) }
{
    match calls.first() {
        Some(call) => call.site.is_some(),
        None => false,
    }
}

// The outermost call was made at a known place: there stands the function, and the innermost call at the address.
#[tactic(auto, using(crate::proofs::MovedCalls::frames_left))]
fn left<'b>(
    alloc: Global,
    calls: Vec<InlinedSite<'b>>,
    direct: Location<'b>,
) -> Result<CallPlaces<'b>, AllocError>
    requires { is_some (site_of_next (map inlined_view calls.items) None) ≡ true }
    ensures { IfOk result (λ p. places_view p
        ≡ frames (location_view direct.entry) (map inlined_view calls.entry.items)) }
{
    let moved = moved(alloc, calls, Some(direct))?;
    Ok(CallPlaces {
        code_info: code_info_if(moved.first),
        inlined: InlinedFns::from_vec(moved.inlined),
    })
}

// It was not: the function stands at the address.
#[tactic(auto, using(crate::proofs::MovedCalls::frames_kept))]
fn kept<'b>(
    alloc: Global,
    calls: Vec<InlinedSite<'b>>,
    direct: Location<'b>,
) -> Result<CallPlaces<'b>, AllocError>
    requires { is_some (site_of_next (map inlined_view calls.items) None) ≡ false }
    ensures { IfOk result (λ p. places_view p
        ≡ frames (location_view direct.entry) (map inlined_view calls.entry.items)) }
{
    let moved = moved(alloc, calls, None)?;
    Ok(CallPlaces {
        code_info: Some(code_info(direct)),
        inlined: InlinedFns::from_vec(moved.inlined),
    })
}

impl<'b> CallPlaces<'b> {
    /// No places; takes no memory.
    pub fn none(alloc: Global) -> CallPlaces<'b>
        ensures { places_view result ≡ no_places }
    {
        CallPlaces {
            code_info: None,
            inlined: InlinedFns::empty(alloc),
        }
    }

    /// The place of the address alone; takes no memory.
    pub fn one(alloc: Global, direct: Location<'b>) -> CallPlaces<'b>
        ensures { places_view result ≡ one_place (location_view direct.entry) }
    {
        CallPlaces {
            code_info: Some(code_info(direct)),
            inlined: InlinedFns::empty(alloc),
        }
    }

    /// The place of the address where it is there; takes no memory.
    pub fn one_if(alloc: Global, direct: Option<Location<'b>>) -> CallPlaces<'b>
        ensures { places_view result ≡ one_place_if (option_map location_view direct.entry) }
    {
        match direct {
            Some(direct) => CallPlaces::one(alloc, direct),
            None => CallPlaces::none(alloc),
        }
    }

    /// The place of an address, and the calls that cover it, each place with the function in which it lies.
    pub fn frames(
        alloc: Global,
        direct: Location<'b>,
        calls: InlinedSites<'b>,
    ) -> Result<CallPlaces<'b>, AllocError>
        ensures { IfOk result
            (λ p. places_view p ≡ frames (location_view direct.entry) calls.entry) }
    {
        let calls = calls.into_vec();
        if calls.is_empty() {
            return Ok(CallPlaces::one(alloc, direct));
        }
        if is_left(&calls) {
            left(alloc, calls, direct)
        } else {
            kept(alloc, calls, direct)
        }
    }
}
