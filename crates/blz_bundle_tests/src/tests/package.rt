//! The package of split debug information.
use super::{is_at, open_lone, open_with, stands_alone};
use blz_checks::Checks;
use blz_images::nested_functions;
use std::test::Fail;

#[test]
fn the_package_lies_beside_the_image(rt: HostRuntime) -> Result<(), Fail> {
    let mut checks = Checks::new();
    let alloc = rt.alloc();
    let lone = open_lone(alloc, nested_functions(alloc).expect(&rt, "refused")).expect(
        &rt, "refused",
    );
    checks.holds(stands_alone(&lone.bundle()));
    let opened = open_with(
        alloc,
        nested_functions(alloc).expect(&rt, "refused"),
        "/x/a.dwp",
        b"package",
    )
    .expect(&rt, "refused");
    checks.holds(is_at(opened.bundle().package, "/x/a.dwp", b"package"));
    checks.result()
}
