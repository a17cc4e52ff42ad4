//! The addresses of a line.
use super::images::{cut_short, of_lines, one_unit, two_rows, two_units};
use blz_bytes::ByStdSort;
use blz_checks::Checks;
use blz_error::{ErrorKind, Result};
use blz_images::{ByteOrder, DebugLine};
use blz_rows::{Place, Places, rows_of};
use blz_runs::{lone, refusal};
use std::alloc::{AllocError, Global};
use std::test::Fail;

const FIRST: Place = Place {
    address: 0x1004,
    end: 0x1015,
};

const SECOND: Place = Place {
    address: 0x1015,
    end: 0x1018,
};

fn places(alloc: Global, image: &[u8], file: &str, line: u32) -> Result<Places> {
    if file.is_empty() || line == 0 {
        return Ok(Places::from_vec(Vec::new(alloc)));
    }
    rows_of(alloc, &mut ByStdSort, &lone(image), file.as_bytes(), line)
}

#[test]
fn a_file_is_found_by_its_path_or_the_end_of_it(rt: HostRuntime) -> std::result::Result<(), Fail> {
    let mut checks = Checks::new();
    let alloc = rt.alloc();
    for order in [ByteOrder::Little, ByteOrder::Big] {
        let lines = two_rows(alloc, order, 4, b"").expect(&rt, "refused");
        let image = of_lines(alloc, order, 4, &lines).expect(&rt, "refused");
        for file in ["a.c", "/p/a.c", "p/a.c"] {
            let found = places(alloc, &image, file, 2).expect(&rt, "refused");
            checks.same(found.as_slice(), [FIRST, SECOND].as_slice());
        }
        for file in [".c", "c", "/a.c", "q/a.c", "/p/a.c/"] {
            checks.same(
                places(alloc, &image, file, 2).expect(&rt, "refused").len(),
                0,
            );
        }
    }
    checks.result()
}

#[test]
fn a_line_without_rows_has_no_addresses(rt: HostRuntime) -> std::result::Result<(), Fail> {
    let mut checks = Checks::new();
    let alloc = rt.alloc();
    let image = one_unit(alloc).expect(&rt, "refused");
    checks.same(
        places(alloc, &image, "a.c", 3).expect(&rt, "refused").len(),
        0,
    );
    checks.same(
        places(alloc, &image, "a.c", u32::MAX)
            .expect(&rt, "refused")
            .len(),
        0,
    );
    checks.result()
}

#[test]
fn places_are_lent_by_their_index(rt: HostRuntime) -> std::result::Result<(), Fail> {
    let mut checks = Checks::new();
    let alloc = rt.alloc();
    let found = places(alloc, &one_unit(alloc).expect(&rt, "refused"), "a.c", 2).expect(
        &rt, "refused",
    );
    checks.same(found.get(1).copied(), Some(SECOND));
    checks.same(found.get(2).copied(), None);
    checks.same(found.into_vec().len(), 2);
    checks.result()
}

#[test]
fn rows_of_all_units_are_listed_in_their_order(rt: HostRuntime) -> std::result::Result<(), Fail> {
    let mut checks = Checks::new();
    let alloc = rt.alloc();
    let again = two_rows(alloc, ByteOrder::Little, 4, b"").expect(&rt, "refused");
    let image = two_units(alloc, &again).expect(&rt, "refused");
    let found = places(alloc, &image, "a.c", 2).expect(&rt, "refused");
    checks.same(found.as_slice(), [FIRST, SECOND, FIRST, SECOND].as_slice());
    checks.result()
}

#[test]
fn broken_lines_of_a_later_unit_are_met(rt: HostRuntime) -> std::result::Result<(), Fail> {
    let mut checks = Checks::new();
    let alloc = rt.alloc();
    let image = two_units(alloc, &cut_short(alloc).expect(&rt, "refused")).expect(&rt, "refused");
    checks.same(
        refusal(places(alloc, &image, "a.c", 2)),
        Some(ErrorKind::InvalidDwarf),
    );
    checks.result()
}

#[test]
fn a_row_of_no_file_is_refused_whatever_is_asked(rt: HostRuntime) -> std::result::Result<(), Fail> {
    let mut checks = Checks::new();
    let alloc = rt.alloc();
    // set_file 9
    let lines = two_rows(alloc, ByteOrder::Little, 4, &[4, 9]).expect(&rt, "refused");
    let image = of_lines(alloc, ByteOrder::Little, 4, &lines).expect(&rt, "refused");
    for file in ["a.c", "b.c"] {
        checks.same(
            refusal(places(alloc, &image, file, 2)),
            Some(ErrorKind::InvalidDwarf),
        );
    }
    checks.result()
}

// file 1200 is `b.c`, before it all are `a.c`; a row of line 7 in it
fn many_files(alloc: Global) -> std::result::Result<Vec<u8>, AllocError> {
    let mut lines = DebugLine::new(alloc, ByteOrder::Little, 4);
    for _ in 1..1200 {
        lines.file("a.c", 0)?;
    }
    lines.file("b.c", 0)?;
    lines.set_address(0x1000)?;
    lines.set_file(1200)?;
    lines.advance_line(6)?;
    lines.row()?;
    lines.advance(4)?;
    lines.end_sequence()?;
    lines.bytes()
}

#[test]
fn a_file_of_a_great_number_is_found(rt: HostRuntime) -> std::result::Result<(), Fail> {
    let mut checks = Checks::new();
    let alloc = rt.alloc();
    let image = of_lines(
        alloc,
        ByteOrder::Little,
        4,
        &many_files(alloc).expect(&rt, "refused"),
    )
    .expect(&rt, "refused");
    checks.same(
        places(alloc, &image, "b.c", 7).expect(&rt, "refused").len(),
        1,
    );
    checks.same(
        places(alloc, &image, "a.c", 7).expect(&rt, "refused").len(),
        0,
    );
    checks.result()
}
