//! The text of stacks.

use blz_checks::Checks;
use blz_fold::{StackFault, parse_stacks};
use std::alloc::Global;
use std::test::Fail;

// What a text is refused for, where it is.
fn fault_of(alloc: Global, text: &[u8]) -> Option<StackFault> {
    match parse_stacks(alloc, text) {
        Ok(_) => None,
        Err(fault) => Some(fault),
    }
}

#[test]
fn each_line_is_a_stack(rt: HostRuntime) -> Result<(), Fail> {
    let mut checks = Checks::new();
    let text = b"3 1140;0x1150\n18446744073709551612 FF";
    let Ok(stacks) = parse_stacks(rt.alloc(), text) else {
        panic!(rt; "refused");
    };
    checks.same(stacks.len(), 2);
    checks.holds(stacks.get(2).is_none());
    let Some(first) = stacks.get(0) else {
        panic!(rt; "no first stack");
    };
    checks.same(first.count, 3);
    checks.same(first.addresses.as_slice(), [0x1140, 0x1150].as_slice());
    checks.same(first.addresses.len(), 2);
    checks.same(first.addresses.get(1).copied(), Some(0x1150));
    let Some(second) = stacks.get(1) else {
        panic!(rt; "no second stack");
    };
    checks.same(second.count, 18446744073709551612);
    checks.same(second.addresses.as_slice(), [0xff].as_slice());
    checks.result()
}

#[test]
fn a_text_without_lines_has_no_stack(rt: HostRuntime) -> Result<(), Fail> {
    let mut checks = Checks::new();
    let Ok(stacks) = parse_stacks(rt.alloc(), b"") else {
        panic!(rt; "refused");
    };
    checks.same(stacks.len(), 0);
    checks.result()
}

#[test]
fn a_line_of_another_form_is_refused_with_its_number(rt: HostRuntime) -> Result<(), Fail> {
    let mut checks = Checks::new();
    let lines: [&[u8]; 16] = [
        b"0 10",
        b"01 10",
        b"18446744073709551616 10",
        b"+1 10",
        b"1",
        b"110",
        b"1  10",
        b" 1 10",
        b"1\t10",
        b"1 ",
        b"1 10;",
        b"1 ;10",
        b"1 10;;20",
        b"1 10\r",
        b"1 12345678901234567",
        b"1 0x",
    ];
    for line in lines {
        let mut text = Vec::new(rt.alloc());
        text.extend_from_slice(b"1 10\n").expect(&rt, "refused");
        text.extend_from_slice(line).expect(&rt, "refused");
        checks.same(fault_of(rt.alloc(), &text), Some(StackFault::Line(2)));
        text.extend_from_slice(b"\n1 10\n").expect(&rt, "refused");
        checks.same(fault_of(rt.alloc(), &text), Some(StackFault::Line(2)));
    }
    checks.result()
}

#[test]
fn an_empty_line_is_refused_and_a_last_line_feed_makes_none(rt: HostRuntime) -> Result<(), Fail> {
    let mut checks = Checks::new();
    checks.same(fault_of(rt.alloc(), b"\n"), Some(StackFault::Line(1)));
    checks.same(fault_of(rt.alloc(), b"1 10\n\n"), Some(StackFault::Line(2)));
    checks.same(fault_of(rt.alloc(), b"1 10\n"), None);
    checks.result()
}

#[test]
fn the_earlier_line_decides(rt: HostRuntime) -> Result<(), Fail> {
    let mut checks = Checks::new();
    let alloc = rt.alloc();
    let total = b"18446744073709551615 10\n1 10\nx\n";
    checks.same(fault_of(alloc, total), Some(StackFault::Total(2)));
    let line = b"18446744073709551615 10\nx\n1 10\n";
    checks.same(fault_of(alloc, line), Some(StackFault::Line(2)));
    let both = b"18446744073709551615 10\n1 1g\n";
    checks.same(fault_of(alloc, both), Some(StackFault::Line(2)));
    checks.same(fault_of(alloc, b"18446744073709551614 10\n1 10"), None);
    checks.result()
}

#[test]
fn a_line_may_be_very_long(rt: HostRuntime) -> Result<(), Fail> {
    let mut checks = Checks::new();
    let mut text = Vec::new(rt.alloc());
    text.extend_from_slice(b"1 a").expect(&rt, "refused");
    for _ in 0..1_000_000 {
        text.extend_from_slice(b";123456789").expect(&rt, "refused");
    }
    let Ok(stacks) = parse_stacks(rt.alloc(), &text) else {
        panic!(rt; "refused");
    };
    let Some(stack) = stacks.get(0) else {
        panic!(rt; "no stack");
    };
    checks.same(stack.addresses.len(), 1_000_001);
    checks.result()
}
