//! Functions of several units, one after the other.
ghost use Rattle.std.specs.Prelude.{◌≡◌, None, false};
ghost use Rattle.blz_units.specs.BuiltUnits.{IsReadable};

use super::small::{Parts, file_of, refusal};
use blz_bytes::AsTheyStand;
use blz_checks::Checks;
use blz_error::{ErrorKind, Result};
use blz_index::{Dwarf, Function, Units, VisitFunction};
use blz_relocations::{Flow, RelocationMap};
use std::alloc::Global;
use std::test::Fail;

// a unit with children; a function with a name and addresses
const ABBREV: &[u8] = b"\x01\x11\x01\0\0\x02.\0\x03\x08\x11\x01\x12\x06\0\0\0";

// the first unit has m, n and n, the second m, and the third n
const THREE: &[u8] = b"\x36\0\0\0\x04\0\0\0\0\0\x08\x01\
      \x02m\0\x10\0\0\0\0\0\0\0\x10\0\0\0\x02n\0\x20\0\0\0\0\0\0\0\x10\0\0\0\x02n\0\x30\0\0\0\0\0\0\0\x10\0\0\0\0\
      \x18\0\0\0\x04\0\0\0\0\0\x08\x01\x02m\0\x40\0\0\0\0\0\0\0\x10\0\0\0\0\
      \x18\0\0\0\x04\0\0\0\0\0\x08\x01\x02n\0\x50\0\0\0\0\0\0\0\x10\0\0\0\0";

// the first unit has m, and the second an entry whose code no abbreviation has
const BROKEN: &[u8] = b"\x18\0\0\0\x04\0\0\0\0\0\x08\x01\x02m\0\x40\0\0\0\0\0\0\0\x10\0\0\0\0\
      \x0a\0\0\0\x04\0\0\0\0\0\x08\x01\x09\0";

/// Counts what it is shown, and breaks at a number.
#[derive(Clone, Copy)]
struct Count {
    end: usize,
    shown: usize,
    unit: usize,
    stopped: bool,
}

impl VisitFunction for Count {
    ghost shown = { λ _. None };

    ghost stopped = { λ c. c.stopped };

    fn visit(&mut self, unit: usize, _function: &Function) -> Flow {
        self.shown = self.shown.saturating_add(1);
        self.unit = unit;
        self.stopped = self.shown == self.end;
        if self.stopped {
            return Flow::Break;
        }
        Flow::Continue
    }
}

fn show(alloc: Global, dwarf: &Dwarf<'_, '_>, count: &mut Count) -> Result<()>
    requires readable { IsReadable dwarf.now }
    requires goes_on { count.old.stopped ≡ false }
{
    let mut units = Units::parse(alloc, &mut AsTheyStand, dwarf)?;
    units.for_each_function(alloc, &mut AsTheyStand, dwarf, count)
}

// how many functions of a file are shown and the unit of the last, and why no further one is
fn counted(alloc: Global, info: &[u8], end: usize) -> (usize, usize, Option<ErrorKind>) {
    let none = RelocationMap::new(alloc);
    let parts = Parts {
        info,
        abbrev: ABBREV,
        line: &[],
    };
    let mut count = Count {
        end,
        shown: 0,
        unit: 0,
        stopped: false,
    };
    let fault = refusal(show(alloc, &file_of(&parts, &none), &mut count));
    (count.shown, count.unit, fault)
}

#[test]
fn all_functions_are_shown_until_a_break_or_a_mark(
    rt: HostRuntime,
) -> std::result::Result<(), Fail> {
    let mut checks = Checks::new();
    let broken = Some(ErrorKind::InvalidDwarf);
    let cases = [
        (THREE, 9, (5, 2, None)),
        (THREE, 4, (4, 1, None)),
        (BROKEN, 9, (1, 0, broken)),
    ];
    for (info, end, wanted) in cases {
        checks.same(counted(rt.alloc(), info, end), wanted);
    }
    checks.result()
}
