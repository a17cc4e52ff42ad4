//! The demo, its image and its four lines.
use crate::tests::runs::{run_to, written};
use blz_checks::Checks;
use blz_resolver::files::MemoryFiles;
use blz_resolver::outside::MemorySink;
use blz_tool::demo_image;
use std::test::Fail;

#[test]
fn an_image_of_one_function_has_its_sections_without_gaps(rt: HostRuntime) -> Result<(), Fail> {
    let mut checks = Checks::new();
    let image = demo_image(rt.alloc(), 1).expect(&rt, "refused");
    // the headers, the names, the abbreviations, the unit and the line program
    assert!(rt; image.len() == 384 + 49 + 27 + 62 + 57);
    checks.same(&image[384..395], b"\0.shstrtab\0".as_slice());
    checks.same(&image[460..464], [58, 0, 0, 0].as_slice());
    checks.same(&image[471..479], b"\x01demo.c\0".as_slice());
    checks.same(&image[505..509], b"\x02f0\0".as_slice());
    checks.same(&image[522..526], [53, 0, 0, 0].as_slice());
    checks.same(&image[574..], [2, 16, 0, 1, 1].as_slice());
    checks.result()
}

#[test]
fn the_demo_counts_its_functions_and_lines(rt: HostRuntime) -> Result<(), Fail> {
    let mut checks = Checks::new();
    let alloc = rt.alloc();
    let mut files = MemoryFiles::new(alloc);
    let one = written(alloc, &mut files, &["--demo", "1"]).expect(&rt, "refused");
    checks.same(
        one.bytes(),
        b"functions 1\naddresses 2\nfound 1\nlines 1\n".as_slice(),
    );
    let twelve = written(alloc, &mut files, &["--demo", "12"]).expect(&rt, "refused");
    checks.same(
        twelve.bytes(),
        b"functions 12\naddresses 24\nfound 12\nlines 78\n".as_slice(),
    );
    checks.result()
}

#[test]
fn a_sink_that_fails_has_a_front_of_the_four_lines(rt: HostRuntime) -> Result<(), Fail> {
    let mut checks = Checks::new();
    let alloc = rt.alloc();
    let out = MemorySink::with_room(alloc, 15, 4).expect(&rt, "refused");
    let mut files = MemoryFiles::new(alloc);
    let ended = run_to(alloc, &mut files, &["--demo", "2"], out).expect(&rt, "refused");
    checks.holds(ended.is(3, b"functions 2\nadd", b"blz_tool: write failed\n"));
    checks.result()
}
