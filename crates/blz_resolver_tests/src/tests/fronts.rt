//! Fronts of an image of 424 bytes: a header, from 64 on four section headers, from 320 on the names of the sections, from
//! 347 on the null symbol, A and B, and from 419 on their names.
use super::shown::names;
use blz_checks::Checks;
use blz_error::ErrorKind;
use blz_images::{nested_functions, prefix};
use blz_runs::{lone, refusal};
use std::alloc::Global;
use std::ops::Range;
use std::test::Fail;

// the fronts of these lengths are to be refused for this reason
fn fronts_are(
    checks: &mut Checks,
    alloc: Global,
    image: &[u8],
    lengths: Range<usize>,
    addrs: &[u64],
    wanted: Option<ErrorKind>,
) {
    for length in lengths {
        let front = lone(prefix(image, length));
        checks.same(
            (length, refusal(names(alloc, &front, addrs))),
            (length, wanted),
        );
    }
}

#[test]
fn an_address_needs_the_image_and_no_address_the_names_of_its_sections(
    rt: HostRuntime,
) -> Result<(), Fail> {
    let mut checks = Checks::new();
    let alloc = rt.alloc();
    let invalid = Some(ErrorKind::InvalidData);
    let image = nested_functions(alloc).expect(&rt, "refused");
    fronts_are(&mut checks, alloc, &image, 0..424, &[15], invalid);
    fronts_are(&mut checks, alloc, &image, 424..425, &[15], None);
    fronts_are(&mut checks, alloc, &image, 0..347, &[], invalid);
    fronts_are(&mut checks, alloc, &image, 347..425, &[], None);
    checks.result()
}
