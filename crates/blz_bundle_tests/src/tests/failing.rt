//! Files that fail.
use super::{holding, is_at, linked, open, refusal, with_common, with_digits};
use blz_checks::Checks;
use blz_error::ErrorKind;
use blz_images::{ByteOrder, debug_link, nested_functions, with_section};
use blz_links::debug_link_crc32;
use std::alloc::Global;
use std::test::Fail;

// the refusal of an image without links where a call fails
fn failing_at(alloc: Global, call: u64, denied: bool) -> blz_error::Result<Option<ErrorKind>> {
    let mut files = holding(alloc, nested_functions(alloc)?)?;
    files.fail_at(call, denied)?;
    Ok(refusal(open(alloc, &mut files)))
}

#[test]
fn the_image_and_the_package_are_read_and_nothing_else(rt: HostRuntime) -> Result<(), Fail> {
    let mut checks = Checks::new();
    let alloc = rt.alloc();
    checks.gives(
        failing_at(alloc, 1, true),
        Some(ErrorKind::PermissionDenied),
    );
    checks.gives(failing_at(alloc, 2, false), Some(ErrorKind::Other));
    checks.gives(failing_at(alloc, 3, false), None);
    checks.result()
}

#[test]
fn each_call_of_a_search_ends_opening_where_it_fails(rt: HostRuntime) -> Result<(), Fail> {
    let mut checks = Checks::new();
    let alloc = rt.alloc();
    // the path of the linker, a candidate that is not there, the one that is, its bytes
    for call in [2, 3, 5, 6] {
        let mut files = with_digits(alloc, "/x/a.debug").expect(&rt, "refused");
        files.fail_at(call, true).expect(&rt, "refused");
        checks.same(
            refusal(open(alloc, &mut files)),
            Some(ErrorKind::PermissionDenied),
        );
    }
    checks.result()
}

#[test]
fn each_call_for_a_shared_file_ends_opening_where_it_fails(rt: HostRuntime) -> Result<(), Fail> {
    let mut checks = Checks::new();
    let alloc = rt.alloc();
    // the path of the linker, two candidates by build id, two by name, the one that is there, its bytes
    for call in 3..10 {
        let mut files = with_common(alloc, "common", "/x/common").expect(&rt, "refused");
        files.fail_at(call, false).expect(&rt, "refused");
        checks.same(refusal(open(alloc, &mut files)), Some(ErrorKind::Other));
    }
    checks.result()
}

#[test]
fn the_debug_link_of_a_debug_file_is_not_followed(rt: HostRuntime) -> Result<(), Fail> {
    let mut checks = Checks::new();
    let alloc = rt.alloc();
    let back = debug_link(alloc, ByteOrder::Little, "a", 0).expect(&rt, "refused");
    let debug = with_section(alloc, ".gnu_debuglink", &back).expect(&rt, "refused");
    let mut files = holding(
        alloc,
        linked(alloc, "a.debug", debug_link_crc32(&debug)).expect(&rt, "refused"),
    )
    .expect(&rt, "refused");
    files.put("/x/a.debug", debug).expect(&rt, "refused");
    // the calls before: a read, the path of the linker, three candidates, a read, the package
    files.fail_at(8, false).expect(&rt, "refused");
    let opened = open(alloc, &mut files).expect(&rt, "refused");
    let debug = with_section(alloc, ".gnu_debuglink", &back).expect(&rt, "refused");
    checks.holds(is_at(opened.bundle().linkee, "/x/a.debug", &debug));
    checks.result()
}
