//! What is refused, whatever it would hold.
use super::built::{Built, FORMATS, Format};
use super::functions::nested;
use super::shown::{names_are, refusal_of};
use blz_checks::Checks;
use blz_error::ErrorKind;
use blz_images::{prefix, with_compressed_section, with_section};
use std::alloc::Global;
use std::test::Fail;

// the first bytes of an image
fn cut(alloc: Global, format: Format) -> Built {
    let image = nested(alloc, format)?;
    Vec::from_slice(alloc, prefix(&image, 10))
}

#[test]
fn debug_information_is_read_without_addresses(rt: HostRuntime) -> Result<(), Fail> {
    let mut checks = Checks::new();
    let alloc = rt.alloc();
    let invalid = Some(ErrorKind::InvalidData);
    for format in FORMATS {
        names_are(&mut checks, alloc, nested(alloc, format), &[], &[]);
        checks.same(refusal_of(alloc, cut(alloc, format), &[]), invalid);
    }
    checks.result()
}

#[test]
fn what_is_packed_is_unsupported(rt: HostRuntime) -> Result<(), Fail> {
    let mut checks = Checks::new();
    let alloc = rt.alloc();
    let unsupported = Some(ErrorKind::Unsupported);
    let compressed = with_compressed_section(alloc, ".debug_info");
    checks.same(refusal_of(alloc, compressed, &[]), unsupported);
    // symbols in place of a table
    let symbols = with_section(alloc, ".gnu_debugdata", b"x");
    checks.same(refusal_of(alloc, symbols, &[0]), unsupported);
    checks.result()
}
