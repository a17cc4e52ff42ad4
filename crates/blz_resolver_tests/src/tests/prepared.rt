//! What was read before, and kept without the image.
ghost use Rattle.std.specs.Prelude.{◌≡◌, ◌<◌, true};

use super::built::LITTLE4;
use super::shown::name_of;
use super::units::broken_second_unit;
use blz_bytes::{ByStdSort, Steps};
use blz_checks::Checks;
use blz_elf::FindSymOpts;
use blz_error::{ErrorKind, Result};
use blz_resolver::{Bundle, ElfResolver};
use blz_runs::{lone, refusal};
use std::alloc::Global;
use std::marker::Brand;
use std::sync::ledger::{Blank, Ledger};
use std::test::Fail;

/// Whether an address of the sound unit has its function, and why one of the broken unit is refused.
type Both = (bool, Option<ErrorKind>);

fn asked_in_both<L: Ledger>(resolver: &ElfResolver<'_>, blank: Blank) -> Both
    requires prepared { resolver.now.prepared ≡ true }
    requires name { blank.name ≡ L.name }
    requires parts { blank.parts ≡ L.parts }
    requires some { 0 < blank.parts }
{
    let mut steps: Steps<L> = Steps::new(blank);
    let sound = match resolver.find_sym_prepared(0x12, &FindSymOpts::Basic, &mut steps) {
        Ok(answer) => name_of(&answer) == Some("sound"),
        Err(_) => false,
    };
    let broken = resolver.find_sym_prepared(0x22, &FindSymOpts::Basic, &mut steps);
    (sound, refusal(broken))
}

// the answers from what was read, where it was prepared
fn answered(resolver: &ElfResolver<'_>) -> Option<Both> {
    if resolver.is_prepared() {
        Some(asked_in_both::<Brand>(resolver, Blank::new(1)))
    } else {
        None
    }
}

fn answered_warm(alloc: Global, bundle: &Bundle<'_>) -> Result<Option<Both>> {
    let mut resolver = ElfResolver::from_bundle(alloc, &mut ByStdSort, bundle)?;
    resolver.prepare(alloc, &mut ByStdSort)?;
    let resolver = ElfResolver::from_warm(alloc, bundle, resolver.into_warm());
    Ok(answered(&resolver))
}

fn warm(alloc: Global) -> Result<Option<Both>> {
    let image = broken_second_unit(alloc, LITTLE4)?;
    answered_warm(alloc, &lone(&image))
}

#[test]
fn a_warm_resolver_answers_as_it_did(rt: HostRuntime) -> std::result::Result<(), Fail> {
    let mut checks = Checks::new();
    let wanted = (true, Some(ErrorKind::InvalidDwarf));
    checks.gives(warm(rt.alloc()), Some(wanted));
    checks.result()
}
