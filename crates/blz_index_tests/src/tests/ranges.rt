//! Ranges of functions in orders that are accepted and that are not.
ghost use Rattle.std.specs.Prelude.{◌≡◌, ◌<◌};
ghost use Rattle.blz_units.specs.BuiltUnits.{IsReadable};

use super::small::{Parts, file_of, only_unit};
use blz_bytes::{AsTheyStand, ByStdSort, Orders, Steps};
use blz_checks::Checks;
use blz_error::Result;
use blz_index::{Dwarf, Functions};
use blz_relocations::RelocationMap;
use std::alloc::Global;
use std::marker::Brand;
use std::sync::ledger::{Blank, Ledger};
use std::test::Fail;

// a unit with children; a function with a name and addresses
const ABBREV: &[u8] = b"\x01\x11\x01\0\0\x02.\0\x03\x08\x11\x01\x12\x06\0\0\0";

// functions of eight bytes at 0, 16, 32, 48 and 64
const RISING: &[u8] = b"\x54\0\0\0\x04\0\0\0\0\0\x08\x01\
      \x02f\0\x00\0\0\0\0\0\0\0\x08\0\0\0\
      \x02f\0\x10\0\0\0\0\0\0\0\x08\0\0\0\
      \x02f\0\x20\0\0\0\0\0\0\0\x08\0\0\0\
      \x02f\0\x30\0\0\0\0\0\0\0\x08\0\0\0\
      \x02f\0\x40\0\0\0\0\0\0\0\x08\0\0\0\
      \0";

// the same functions, the last first
const FALLING: &[u8] = b"\x54\0\0\0\x04\0\0\0\0\0\x08\x01\
      \x02f\0\x40\0\0\0\0\0\0\0\x08\0\0\0\
      \x02f\0\x30\0\0\0\0\0\0\0\x08\0\0\0\
      \x02f\0\x20\0\0\0\0\0\0\0\x08\0\0\0\
      \x02f\0\x10\0\0\0\0\0\0\0\x08\0\0\0\
      \x02f\0\x00\0\0\0\0\0\0\0\x08\0\0\0\
      \0";

/// Whether an order was accepted, the places of the ranges at 0x22 and at 0x2a, and the functions of the ranges 2 and 5.
type Ranges = (bool, [Option<usize>; 2], [Option<usize>; 2]);

// the places of the ranges at 0x22 and at 0x2a
fn found<L: Ledger>(functions: &Functions, blank: Blank) -> [Option<usize>; 2]
    requires name { blank.name ≡ L.name }
    requires parts { blank.parts ≡ L.parts }
    requires some { 0 < blank.parts }
{
    let mut steps: Steps<L> = Steps::new(blank);
    let inside = functions.find_address(0x22, &mut steps);
    let behind = functions.find_address(0x2a, &mut steps);
    [inside, behind]
}

fn ranges_of(functions: &Functions) -> Ranges {
    let places = found::<Brand>(functions, Blank::new(1));
    let owners = [functions.function_of(2), functions.function_of(5)];
    (functions.is_ordered(), places, owners)
}

fn unit_ranges<O: Orders>(alloc: Global, orders: &mut O, dwarf: &Dwarf<'_, '_>) -> Result<Ranges>
    requires { IsReadable dwarf.now }
{
    let mut units = only_unit(alloc, orders, dwarf)?;
    let functions = units.parse_functions(alloc, orders, dwarf, 0)?;
    Ok(ranges_of(functions))
}

// the ranges of a unit's functions in the caller's orders
fn asked<O: Orders>(alloc: Global, orders: &mut O, info: &[u8]) -> Result<Ranges> {
    let none = RelocationMap::new(alloc);
    let parts = Parts {
        info,
        abbrev: ABBREV,
        line: &[],
    };
    let dwarf = file_of(&parts, &none);
    unit_ranges(alloc, orders, &dwarf)
}

#[test]
fn a_list_is_accepted_in_order_and_scanned_else(rt: HostRuntime) -> std::result::Result<(), Fail> {
    let mut checks = Checks::new();
    let alloc = rt.alloc();
    let places = [Some(2), None];
    checks.gives(
        asked(alloc, &mut AsTheyStand, RISING),
        (true, places, places),
    );
    checks.gives(
        asked(alloc, &mut AsTheyStand, FALLING),
        (false, places, places),
    );
    checks.gives(
        asked(alloc, &mut ByStdSort, FALLING),
        (true, places, places),
    );
    checks.result()
}
