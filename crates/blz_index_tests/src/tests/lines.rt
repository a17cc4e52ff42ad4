//! The lines of a small unit (DWARF 5 section 6.2).
ghost use Rattle.blz_units.specs.BuiltUnits.{IsReadable};

use super::small::{Parts, file_of, only_unit};
use blz_bytes::ByStdSort;
use blz_checks::Checks;
use blz_error::Result;
use blz_index::Dwarf;
use blz_line::{LineSequence, Lines};
use blz_relocations::RelocationMap;
use std::alloc::Global;
use std::test::Fail;

// 1 a unit with a line program, 2 one without
const ABBREV: &[u8] = b"\x01\x11\0\x10\x17\0\0\x02\x11\0\0\0\0";

const WITH_LINES: &[u8] = b"\x0c\0\0\0\x04\0\0\0\0\0\x08\x01\0\0\0\0";

const WITHOUT_LINES: &[u8] = b"\x08\0\0\0\x04\0\0\0\0\0\x08\x02";

// of version 4 with the file `a.c`: line base -5, line range 14, opcode base 13; from 0x1000 on rows of line 2 at 0x1004
// and 0x1015, and the end at 0x1018
const PROGRAM: &[u8] =
    b"\x34\0\0\0\x04\0\x1b\0\0\0\x01\x01\x01\xfb\x0e\x0d\0\x01\x01\x01\x01\0\0\0\x01\0\0\x01\
      \0a.c\0\0\0\0\0\
      \0\x09\x02\0\x10\0\0\0\0\0\0\x4b\x08\x01\x02\x03\0\x01\x01";

// one sequence over [0x1004, 0x1018) with rows at 0x1004 and 0x1015
fn is_expected(sequences: &[LineSequence]) -> bool {
    let [sequence] = sequences else {
        return false;
    };
    let [first, second] = sequence.rows() else {
        return false;
    };
    sequence.start == 0x1004
        && sequence.end == 0x1018
        && first.address == 0x1004
        && first.line == 2
        && second.address == 0x1015
        && second.line == 2
}

fn are_expected(lines: Option<&Lines>) -> Option<bool> {
    match lines {
        Some(lines) => Some(is_expected(lines.sequences())),
        None => None,
    }
}

fn unit_lines(alloc: Global, dwarf: &Dwarf<'_, '_>) -> Result<Option<bool>>
    requires { IsReadable dwarf.now }
{
    let mut units = only_unit(alloc, &mut ByStdSort, dwarf)?;
    let lines = units.parse_lines(alloc, &mut ByStdSort, dwarf, 0)?;
    Ok(are_expected(lines))
}

// whether the lines of a unit are as expected; None where it has none
fn lines_of(alloc: Global, info: &[u8]) -> Result<Option<bool>> {
    let none = RelocationMap::new(alloc);
    let parts = Parts {
        info,
        abbrev: ABBREV,
        line: PROGRAM,
    };
    let dwarf = file_of(&parts, &none);
    unit_lines(alloc, &dwarf)
}

#[test]
fn a_unit_has_the_lines_of_its_program(rt: HostRuntime) -> std::result::Result<(), Fail> {
    let mut checks = Checks::new();
    checks.gives(lines_of(rt.alloc(), WITH_LINES), Some(true));
    checks.gives(lines_of(rt.alloc(), WITHOUT_LINES), None);
    checks.result()
}
