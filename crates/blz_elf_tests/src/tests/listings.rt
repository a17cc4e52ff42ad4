//! Symbols by their names, and all of them.
ghost use Rattle.std.specs.Prelude.{◌≡◌};

use blz_bytes::{AsTheyStand, ByStdSort};
use blz_checks::Checks;
use blz_elf::{Collect, ElfParser, FindAddrOpts, Flow, SymInfo, SymInfos, SymType, Visit};
use blz_error::Result;
use blz_images::{Image, with_nested_functions};
use std::alloc::{AllocError, Global};
use std::test::Fail;

// A, B in it, and the dynamic symbol D at this address
fn three_symbols(alloc: Global, dynamic: u64) -> std::result::Result<Vec<u8>, AllocError> {
    with_nested_functions(Image::elf64(alloc).dynamic_symbol("D", dynamic, 8)?)
}

#[test]
fn lists_the_symbols_of_a_name(rt: HostRuntime) -> std::result::Result<(), Fail> {
    let mut checks = Checks::new();
    let alloc = rt.alloc();
    let image = three_symbols(alloc, 0x40).expect(&rt, "refused");
    let mut parser = ElfParser::from_mem(alloc, &image, Some("a.elf"));
    parser.cache(alloc, &mut AsTheyStand).expect(&rt, "refused");
    for (name, addr, size) in [("A", 0u64, 100u64), ("B", 10, 10)] {
        let infos = parser
            .find_addr(alloc, &mut AsTheyStand, name, &FindAddrOpts::default())
            .expect(&rt, "refused");
        let there = match infos.as_slice() {
            [info] => info.addr == addr && info.size == Some(size),
            _ => false,
        };
        checks.same((name, there), (name, true));
    }
    let none = parser
        .find_addr(alloc, &mut AsTheyStand, "C", &FindAddrOpts::default())
        .expect(&rt, "refused");
    checks.same(none.len(), 0);
    checks.result()
}

#[test]
fn shows_symbols_until_the_visitor_breaks(rt: HostRuntime) -> std::result::Result<(), Fail> {
    let mut checks = Checks::new();
    let alloc = rt.alloc();
    let image = three_symbols(alloc, 0x140).expect(&rt, "refused");
    let mut parser = ElfParser::from_mem(alloc, &image, None);
    for (stop_after, count) in [(None, 3usize), (Some(1usize), 1)] {
        let mut collect = Collect::new(alloc, stop_after);
        parser
            .for_each(
                alloc,
                &mut ByStdSort,
                &FindAddrOpts::default(),
                &mut collect,
            )
            .expect(&rt, "refused");
        checks.same(collect.infos().len(), count);
    }
    checks.result()
}

// four bytes at 16
fn info() -> SymInfo<'static> {
    SymInfo {
        name: "A",
        addr: 16,
        size: Some(4),
        sym_type: SymType::Function,
        file_offset: None,
        module: Some("a.elf"),
    }
}

#[test]
fn collects_until_a_number(rt: HostRuntime) -> std::result::Result<(), Fail> {
    let mut checks = Checks::new();
    let info = info();
    let mut collect = Collect::new(rt.alloc(), Some(2));
    checks.same(collect.visit(&info), Flow::Continue);
    assert!(rt; !collect.stopped());
    checks.same(collect.visit(&info), Flow::Break);
    checks.holds(collect.stopped());
    checks.holds(!collect.full());
    checks.same(collect.infos().len(), 2);
    let second = collect.infos().get(1).expect(&rt, "no second one");
    checks.holds(second.as_info() == info);
    checks.result()
}

#[test]
fn a_list_of_infos_is_what_it_was_made_of(rt: HostRuntime) -> std::result::Result<(), Fail> {
    let mut checks = Checks::new();
    let alloc = rt.alloc();
    let info = info();
    let infos = SymInfos::from_vec([info].to_vec(alloc).expect(&rt, "refused"));
    checks.same(infos.len(), 1);
    checks.holds(infos.get(0) == Some(&info));
    checks.holds(infos.get(1).is_none());
    checks.same(SymInfos::empty(alloc).as_slice().len(), 0);
    checks.result()
}
