//! Functions and inlined calls of a small unit, whose places and ranges were counted by hand.
ghost use Rattle.std.specs.Prelude.{◌≡◌, ◌<◌};
ghost use Rattle.blz_units.specs.BuiltUnits.{IsReadable};

use super::small::{Parts, file_of, only_unit, refusal};
use blz_bytes::{ByStdSort, Steps};
use blz_checks::Checks;
use blz_entry::{StrPart, StrPlace};
use blz_error::{ErrorKind, Result};
use blz_index::{Dwarf, Function, InlinedFunction, InlinedFunctions};
use blz_relocations::RelocationMap;
use std::alloc::Global;
use std::marker::Brand;
use std::sync::ledger::{Blank, Ledger};
use std::test::Fail;

// 1 a unit, 2 a function with name, low and high address, 3 an inlined call with those and its file, line and column,
// 4 a block, 5 a function with a name alone, 6 a function that refers to another entry
const ABBREV: &[u8] =
    b"\x01\x11\x01\0\0\x02\x2e\x01\x03\x08\x11\x01\x12\x0b\0\0\x03\x1d\x01\x03\x08\x11\x01\x12\x0b\x58\x0b\x59\x0b\x57\x0b\0\0\x04\x0b\x01\0\0\x05\x2e\0\x03\x08\0\0\x06\x2e\0\x31\x13\0\0\0";

// f at 12 has a block with the call g at 25, which has the call h at 40, and the function n at 57, which has the call i
// at 69; d at 88 has no range, and the entry at 91 refers to f
const CLOSED: &[u8] =
    b"\x5d\0\0\0\x04\0\0\0\0\0\x08\x01\x02f\0\0\x10\0\0\0\0\0\0\x20\x04\x03g\0\x04\x10\0\0\0\0\0\0\x08\x01\x05\x03\x03h\0\x06\x10\0\0\0\0\0\0\x02\x00\x07\x00\0\0\x02n\0\x10\x10\0\0\0\0\0\0\x04\x03i\0\x11\x10\0\0\0\0\0\0\x01\x01\x09\x00\0\0\0\0\x05d\0\x06\x0c\0\0\0\0";

// the same up to before the zero that closes f
const OPEN: &[u8] =
    b"\x53\0\0\0\x04\0\0\0\0\0\x08\x01\x02f\0\0\x10\0\0\0\0\0\0\x20\x04\x03g\0\x04\x10\0\0\0\0\0\0\x08\x01\x05\x03\x03h\0\x06\x10\0\0\0\0\0\0\x02\x00\x07\x00\0\0\x02n\0\x10\x10\0\0\0\0\0\0\x04\x03i\0\x11\x10\0\0\0\0\0\0\x01\x01\x09\x00\0\0\0";

// a function with the call [0, 10), in which are the calls [0, 2) and [6, 8)
const NESTED: &[u8] =
    b"\x46\0\0\0\x04\0\0\0\0\0\x08\x01\x02f\0\0\0\0\0\0\0\0\0\x0a\x03g\0\0\0\0\0\0\0\0\0\x0a\x01\x01\x00\x03h\0\0\0\0\0\0\0\0\0\x02\x01\x01\x00\0\x03i\0\x06\0\0\0\0\0\0\0\x02\x01\x01\x00\0\0\0\0";

fn parts_of<'b>(info: &'b [u8]) -> Parts<'b> {
    Parts {
        info,
        abbrev: ABBREV,
        line: &[],
    }
}

/// The place of an entry, and where its name of one byte begins.
type Named = (usize, usize);

// a name of one byte
fn name_at(start: usize) -> Option<StrPlace> {
    Some(StrPlace {
        part: StrPart::Info,
        start,
        len: 1,
    })
}

fn are_named(functions: &[Function], wanted: &[Named]) -> bool {
    for (function, (place, name)) in functions.iter().zip(wanted) {
        if function.place != *place || function.name != name_at(*name) {
            return false;
        }
    }
    functions.len() == wanted.len()
}

// whether the functions of the only unit are these
fn unit_has(alloc: Global, dwarf: &Dwarf<'_, '_>, wanted: &[Named]) -> Result<bool>
    requires { IsReadable dwarf.now }
{
    let mut units = only_unit(alloc, &mut ByStdSort, dwarf)?;
    let functions = units.parse_functions(alloc, &mut ByStdSort, dwarf, 0)?;
    Ok(are_named(functions.functions(), wanted))
}

fn has_functions(alloc: Global, info: &[u8], wanted: &[Named]) -> Result<bool> {
    let none = RelocationMap::new(alloc);
    let dwarf = file_of(&parts_of(info), &none);
    unit_has(alloc, &dwarf, wanted)
}

#[test]
fn the_functions_with_a_range_are_listed(rt: HostRuntime) -> std::result::Result<(), Fail> {
    let mut checks = Checks::new();
    for info in [CLOSED, OPEN] {
        checks.gives(has_functions(rt.alloc(), info, &[(12, 13), (57, 58)]), true);
    }
    checks.result()
}

/// Where the name of a call begins, and the file, line and column from which it is made.
type Call = (usize, Option<u64>, u32, u32);

fn is_call(call: &InlinedFunction, wanted: &Call) -> bool {
    call.name == name_at(wanted.0)
        && call.call_file == wanted.1
        && call.call_line == wanted.2
        && call.call_column == wanted.3
}

fn are_calls(calls: &[InlinedFunction], wanted: &[Call]) -> bool {
    for (call, wanted) in calls.iter().zip(wanted) {
        if !is_call(call, wanted) {
            return false;
        }
    }
    calls.len() == wanted.len()
}

// whether the calls below a function of the only unit are these
fn function_has(
    alloc: Global,
    dwarf: &Dwarf<'_, '_>,
    function: usize,
    wanted: &[Call],
) -> Result<bool>
    requires { IsReadable dwarf.now }
{
    let mut units = only_unit(alloc, &mut ByStdSort, dwarf)?;
    let calls = units.parse_inlined_functions(alloc, &mut ByStdSort, dwarf, 0, function)?;
    Ok(are_calls(calls.calls(), wanted))
}

fn has_calls(alloc: Global, info: &[u8], function: usize, wanted: &[Call]) -> Result<bool> {
    let none = RelocationMap::new(alloc);
    let dwarf = file_of(&parts_of(info), &none);
    function_has(alloc, &dwarf, function, wanted)
}

#[test]
fn the_calls_below_a_function_are_its_own(rt: HostRuntime) -> std::result::Result<(), Fail> {
    let mut checks = Checks::new();
    let outer = [(26, Some(1), 5, 3), (41, None, 7, 0)];
    checks.gives(has_calls(rt.alloc(), CLOSED, 0, &outer), true);
    // closed or not, f is around n
    for info in [CLOSED, OPEN] {
        checks.gives(has_calls(rt.alloc(), info, 1, &[(70, Some(1), 9, 0)]), true);
    }
    checks.result()
}

#[test]
fn an_open_function_and_one_that_is_not_there_have_no_calls(
    rt: HostRuntime,
) -> std::result::Result<(), Fail> {
    let mut checks = Checks::new();
    for (info, function) in [(OPEN, 0), (CLOSED, 2)] {
        let refused = refusal(has_calls(rt.alloc(), info, function, &[]));
        checks.same(
            (function, refused),
            (function, Some(ErrorKind::InvalidDwarf)),
        );
    }
    checks.result()
}

// the numbers of the calls of the first three depths that cover an address
fn by_depth<L: Ledger>(calls: &InlinedFunctions, addr: u64, blank: Blank) -> [Option<usize>; 3]
    requires name { blank.name ≡ L.name }
    requires parts { blank.parts ≡ L.parts }
    requires some { 0 < blank.parts }
{
    let mut steps: Steps<L> = Steps::new(blank);
    let outer = calls.at_depth(addr, 0, &mut steps);
    let inner = calls.at_depth(addr, 1, &mut steps);
    let innermost = calls.at_depth(addr, 2, &mut steps);
    [outer, inner, innermost]
}

// whether the chain of an address, the outermost call first, is that of its depths
fn is_chain_of(
    alloc: Global,
    calls: &InlinedFunctions,
    addr: u64,
    wanted: &[usize],
) -> Result<bool> {
    let chain = calls.find_inlined_functions(alloc, addr)?;
    let depths = by_depth::<Brand>(calls, addr, Blank::new(1));
    let wanted_depths = [wanted.get(0).copied(), wanted.get(1).copied(), None];
    Ok(chain.as_slice() == wanted && depths == wanted_depths)
}

fn nested_chain(alloc: Global, dwarf: &Dwarf<'_, '_>, addr: u64, wanted: &[usize]) -> Result<bool>
    requires { IsReadable dwarf.now }
{
    let mut units = only_unit(alloc, &mut ByStdSort, dwarf)?;
    let calls = units.parse_inlined_functions(alloc, &mut ByStdSort, dwarf, 0, 0)?;
    is_chain_of(alloc, calls, addr, wanted)
}

fn has_chain(alloc: Global, addr: u64, wanted: &[usize]) -> Result<bool> {
    let none = RelocationMap::new(alloc);
    let dwarf = file_of(&parts_of(NESTED), &none);
    nested_chain(alloc, &dwarf, addr, wanted)
}

#[test]
fn a_chain_goes_down_by_depth(rt: HostRuntime) -> std::result::Result<(), Fail> {
    let mut checks = Checks::new();
    checks.gives(has_chain(rt.alloc(), 7, &[0, 2]), true);
    checks.gives(has_chain(rt.alloc(), 3, &[0]), true);
    checks.gives(has_chain(rt.alloc(), 10, &[]), true);
    checks.result()
}
