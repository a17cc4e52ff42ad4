//! The next line that has code.
use super::images::{of_lines, one_unit, two_rows};
use blz_bytes::ByStdSort;
use blz_checks::Checks;
use blz_error::ErrorKind;
use blz_images::ByteOrder;
use blz_rows::next_line;
use blz_runs::{lone, refusal};
use std::test::Fail;

#[test]
fn the_next_line_is_the_least_that_is_not_below(rt: HostRuntime) -> Result<(), Fail> {
    let mut checks = Checks::new();
    let alloc = rt.alloc();
    let image = one_unit(alloc).expect(&rt, "refused");
    let bundle = lone(&image);
    checks.gives(
        next_line(alloc, &mut ByStdSort, &bundle, b"a.c", 1),
        Some(2),
    );
    checks.gives(
        next_line(alloc, &mut ByStdSort, &bundle, b"a.c", 2),
        Some(2),
    );
    checks.gives(next_line(alloc, &mut ByStdSort, &bundle, b"a.c", 3), None);
    checks.gives(next_line(alloc, &mut ByStdSort, &bundle, b"b.c", 1), None);
    checks.result()
}

#[test]
fn a_row_whose_file_is_not_there_is_refused(rt: HostRuntime) -> Result<(), Fail> {
    let mut checks = Checks::new();
    let alloc = rt.alloc();
    let lines = two_rows(alloc, ByteOrder::Little, 4, &[4, 9]).expect(&rt, "refused");
    let image = of_lines(alloc, ByteOrder::Little, 4, &lines).expect(&rt, "refused");
    let next = next_line(alloc, &mut ByStdSort, &lone(&image), b"a.c", 1);
    checks.same(refusal(next), Some(ErrorKind::InvalidDwarf));
    checks.result()
}
