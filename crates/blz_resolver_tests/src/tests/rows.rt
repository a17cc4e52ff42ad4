//! The lines of the units of an executable.
use blz_bytes::ByStdSort;
use blz_checks::Checks;
use blz_error::Result;
use blz_images::{ByteOrder, realistic_walk};
use blz_line::LineSequence;
use blz_resolver::{ElfResolver, UnitRows};
use blz_runs::lone;
use std::alloc::Global;
use std::test::Fail;

// one sequence over [0x1200, 0x1260), with one row of line 10 and column 1
fn is_expected(sequences: &[LineSequence]) -> bool {
    let [sequence] = sequences else {
        return false;
    };
    let [row] = sequence.rows() else {
        return false;
    };
    sequence.start == 0x1200 && sequence.end == 0x1260 && row.line == 10 && row.column == 1
}

fn has_file(rows: &UnitRows<'_, '_>, index: u64, name: &[u8]) -> bool {
    match rows.file(index) {
        Some((_, file)) => file == name,
        None => false,
    }
}

// how many units there are, and whether the second has what is expected
fn rows_of_the_second(alloc: Global, image: &[u8]) -> Result<(usize, bool)> {
    let mut resolver = ElfResolver::from_bundle(alloc, &mut ByStdSort, &lone(image))?;
    let count = resolver.unit_count();
    if count < 2 {
        return Ok((count, false));
    }
    let expected = match resolver.unit_rows(alloc, &mut ByStdSort, 1) {
        Ok(Some(rows)) => is_expected(rows.sequences()) && has_file(&rows, 1, b"lib.rs"),
        _ => false,
    };
    Ok((count, expected))
}

fn rows_of_the_walk(alloc: Global, order: ByteOrder) -> Result<(usize, bool)> {
    let image = realistic_walk(alloc, order)?;
    rows_of_the_second(alloc, &image)
}

#[test]
fn the_rows_of_each_unit_are_given(rt: HostRuntime) -> std::result::Result<(), Fail> {
    let mut checks = Checks::new();
    for order in [ByteOrder::Little, ByteOrder::Big] {
        checks.gives(rows_of_the_walk(rt.alloc(), order), (2, true));
    }
    checks.result()
}
