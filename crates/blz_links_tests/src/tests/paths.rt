//! Paths.
use blz_checks::Checks;
use blz_links::{join, parent, same_components, set_file_name};
use std::test::Fail;

#[test]
fn a_slash_stands_between_two_parts_where_it_is_needed(rt: HostRuntime) -> Result<(), Fail> {
    let mut checks = Checks::new();
    let alloc = rt.alloc();
    checks.same(
        join(alloc, "/src", "lib").expect(&rt, "refused").as_str(),
        "/src/lib",
    );
    checks.same(
        join(alloc, "/src/", "lib").expect(&rt, "refused").as_str(),
        "/src/lib",
    );
    checks.same(
        join(alloc, "/src", "/abs").expect(&rt, "refused").as_str(),
        "/abs",
    );
    checks.same(
        join(alloc, "", "lib").expect(&rt, "refused").as_str(),
        "lib",
    );
    checks.result()
}

#[test]
fn a_parent_is_cut_by_text() -> Result<(), Fail> {
    let mut checks = Checks::new();
    checks.same(parent("a/./b").unwrap_or("none"), "a/.");
    checks.same(parent("//a").unwrap_or("none"), "/");
    checks.same(parent("/usr//lib/").unwrap_or("none"), "/usr");
    checks.same(parent("lib").unwrap_or("none"), "");
    checks.same(parent("./").unwrap_or("none"), "");
    checks.result()
}

#[test]
fn the_root_and_the_empty_path_have_no_parent() -> Result<(), Fail> {
    let mut checks = Checks::new();
    checks.holds(parent("/").is_none());
    checks.holds(parent("/.").is_none());
    checks.holds(parent("").is_none());
    checks.result()
}

#[test]
fn a_file_name_is_replaced_where_there_is_one(rt: HostRuntime) -> Result<(), Fail> {
    let mut checks = Checks::new();
    let alloc = rt.alloc();
    let cases = [
        ("/usr/bin/x", "/usr/bin/y"),
        ("/x", "/y"),
        ("x", "y"),
        ("a/..", "a/../y"),
        ("/", "/y"),
    ];
    for (path, wanted) in cases {
        let replaced = set_file_name(alloc, path, "y").expect(&rt, "refused");
        checks.same(replaced.as_str(), wanted);
    }
    checks.result()
}

#[test]
fn components_leave_slashes_and_dots_out() -> Result<(), Fail> {
    let mut checks = Checks::new();
    checks.holds(same_components("/usr//lib/./x/", "/usr/lib/x"));
    checks.holds(!same_components("usr/lib", "/usr/lib"));
    checks.holds(!same_components("./x", "x"));
    checks.holds(!same_components("a/b", "a"));
    checks.holds(!same_components("a", "a/b"));
    checks.holds(same_components("", ""));
    checks.result()
}
