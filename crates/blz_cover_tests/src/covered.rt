//! Counts by line, change by change.
ghost use Rattle.std.specs.Prelude.{◌≡◌, ◌<◌, true, IfOk};
ghost use Rattle.blz_resolver.specs.Resolver.{has_debug};

use crate::one_line::one_line;
use blz_bytes::{ByStdSort, Steps};
use blz_checks::Checks;
use blz_cover::{Cover, CoverFault};
use blz_error::ErrorKind;
use blz_images::ByteOrder;
use blz_resolver::ElfResolver;
use blz_runs::lone;
use std::alloc::Global;
use std::marker::Brand;
use std::sync::ledger::{Blank, Ledger};
use std::test::Fail;

// Four hits: two at the line, one behind its sequence, and one in no unit.
fn hit_four<L: Ledger>(cover: &mut Cover<'_, '_>, blank: Blank) -> Result<(), CoverFault>
    requires name { blank.name ≡ L.name }
    requires parts { blank.parts ≡ L.parts }
    requires some { 0 < blank.parts }
{
    let mut steps: Steps<L> = Steps::new(blank);
    cover.hit(0x1004, 3, &mut steps)?;
    cover.hit(0x1016, 2, &mut steps)?;
    cover.hit(0x1018, 5, &mut steps)?;
    cover.hit(0x2000, 1, &mut steps)
}

// What one taken count, a second one and an added one are refused for.
fn three_changes<L: Ledger>(
    cover: &mut Cover<'_, '_>,
    blank: Blank,
) -> (
    Result<(), CoverFault>,
    Result<(), CoverFault>,
    Result<(), CoverFault>,
)
    requires name { blank.name ≡ L.name }
    requires parts { blank.parts ≡ L.parts }
    requires some { 0 < blank.parts }
{
    let mut steps: Steps<L> = Steps::new(blank);
    let taken = cover.unhit(0x1004, 1, &mut steps);
    let missing = cover.unhit(0x1004, 3, &mut steps);
    let full = cover.hit(0x1004, u64::MAX, &mut steps);
    (taken, missing, full)
}

// The count of the only line, which is line 2 of `a.c` in `/p`.
fn only_count(cover: &Cover<'_, '_>) -> Option<u64> {
    let line = cover.line_at(0)?;
    let named = line.dir.len() == 2
        && line.dir.byte_at(1) == Some(b'p')
        && line.file == b"a.c".as_slice();
    if named && line.line == 2 && cover.lines() == 1 && cover.line_at(1).is_none() {
        Some(line.count)
    } else {
        None
    }
}

fn prepared<'b>(alloc: Global, image: &'b [u8]) -> blz_error::Result<ElfResolver<'b>>
    ensures has_debug { IfOk result (λ r. has_debug r ≡ true) }
    ensures is_prepared { IfOk result (λ r. r.prepared ≡ true) }
{
    let mut resolver = ElfResolver::from_bundle(alloc, &mut ByStdSort, &lone(image))?;
    resolver.prepare(alloc, &mut ByStdSort)?;
    Ok(resolver)
}

#[test]
fn hits_count_at_their_line_or_in_the_rest(rt: HostRuntime) -> Result<(), Fail> {
    let mut checks = Checks::new();
    let alloc = rt.alloc();
    let image = one_line(alloc, ByteOrder::Big, 1).expect(&rt, "refused");
    let resolver = prepared(alloc, &image).expect(&rt, "refused");
    let mut cover = Cover::new(alloc, &resolver);
    checks.same(hit_four::<Brand>(&mut cover, Blank::new(1)), Ok(()));
    checks.same(only_count(&cover), Some(5));
    checks.same((cover.rest(), cover.total()), (6, 11));
    checks.result()
}

#[test]
fn refused_changes_leave_the_counts(rt: HostRuntime) -> Result<(), Fail> {
    let mut checks = Checks::new();
    let alloc = rt.alloc();
    let image = one_line(alloc, ByteOrder::Little, 1).expect(&rt, "refused");
    let resolver = prepared(alloc, &image).expect(&rt, "refused");
    let mut cover = Cover::new(alloc, &resolver);
    checks.same(hit_four::<Brand>(&mut cover, Blank::new(1)), Ok(()));
    let (taken, missing, full) = three_changes::<Brand>(&mut cover, Blank::new(1));
    checks.same(taken, Ok(()));
    checks.same(missing, Err(CoverFault::Missing(2)));
    checks.same(full, Err(CoverFault::Full(10)));
    checks.same(only_count(&cover), Some(4));
    checks.same((cover.rest(), cover.total()), (6, 10));
    checks.result()
}

#[test]
fn a_broken_line_refuses_its_address(rt: HostRuntime) -> Result<(), Fail> {
    let mut checks = Checks::new();
    let alloc = rt.alloc();
    // the file of the second row lies outside the table
    let image = one_line(alloc, ByteOrder::Little, 9).expect(&rt, "refused");
    let resolver = prepared(alloc, &image).expect(&rt, "refused");
    let mut cover = Cover::new(alloc, &resolver);
    checks.same(
        hit_four::<Brand>(&mut cover, Blank::new(1)),
        Err(CoverFault::Mark(ErrorKind::InvalidDwarf)),
    );
    checks.same(only_count(&cover), Some(3));
    checks.same((cover.rest(), cover.total()), (0, 3));
    checks.result()
}
