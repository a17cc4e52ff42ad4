//! The symbol of an address.
use super::found::found;
use blz_bytes::ByStdSort;
use blz_checks::Checks;
use blz_elf::{Answer, ElfParser};
use blz_error::Result;
use blz_images::{
    ByteOrder, Class, Image, last_addresses, nested_functions, no_sections,
    sizeless_dynamic_symbol, undefined_symbol_inside,
};
use std::alloc::{AllocError, Global};
use std::test::Fail;

// A and B of one value, and S without a size
fn three_symbols(
    alloc: Global,
    class: Class,
    order: ByteOrder,
) -> std::result::Result<Vec<u8>, AllocError> {
    Image::of_class(alloc, class)
        .in_order(order)
        .symbol("A", 0, 100)?
        .symbol("B", 0, 10)?
        .symbol("S", 0x300, 0)?
        .bytes()
}

#[test]
fn answers_the_largest_symbol_that_covers_the_address(
    rt: HostRuntime,
) -> std::result::Result<(), Fail> {
    let mut checks = Checks::new();
    let alloc = rt.alloc();
    for (class, order) in [
        (Class::Elf64, ByteOrder::Little),
        (Class::Elf64, ByteOrder::Big),
        (Class::Elf32, ByteOrder::Little),
        (Class::Elf32, ByteOrder::Big),
    ] {
        let image = three_symbols(alloc, class, order).expect(&rt, "refused");
        for (addr, name, size) in [
            (50u64, "A", Some(100u64)),
            (100, "unknown address", None),
            (0x390, "S", None),
        ] {
            let answer = found(alloc, &image, addr).expect(&rt, "refused");
            checks.same((addr, answer.0, answer.1), (addr, name, size));
        }
    }
    checks.result()
}

#[test]
fn the_last_address_has_a_symbol_that_ends_past_it(
    rt: HostRuntime,
) -> std::result::Result<(), Fail> {
    let mut checks = Checks::new();
    let image = last_addresses(rt.alloc()).expect(&rt, "refused");
    let (name, size) = found(rt.alloc(), &image, u64::MAX).expect(&rt, "refused");
    checks.same(name, "S");
    checks.same(size, Some(32));
    checks.result()
}

// each of some addresses has this name
fn check_found(
    checks: &mut Checks,
    alloc: Global,
    image: &[u8],
    names: &[(u64, &str)],
) -> Result<()> {
    for (addr, name) in names {
        checks.same((*addr, found(alloc, image, *addr)?.0), (*addr, *name));
    }
    Ok(())
}

#[test]
fn an_undefined_symbol_hides_the_one_around_it(rt: HostRuntime) -> std::result::Result<(), Fail> {
    let mut checks = Checks::new();
    let image = undefined_symbol_inside(rt.alloc()).expect(&rt, "refused");
    check_found(
        &mut checks,
        rt.alloc(),
        &image,
        &[(30, "unknown address"), (19, "A")],
    )
    .expect(&rt, "refused");
    checks.result()
}

#[test]
fn an_image_without_symbols_has_none(rt: HostRuntime) -> std::result::Result<(), Fail> {
    let mut checks = Checks::new();
    let empty = no_sections(rt.alloc()).expect(&rt, "refused");
    check_found(&mut checks, rt.alloc(), &empty, &[(0, "no symbols")]).expect(&rt, "refused");
    checks.result()
}

#[test]
fn a_dynamic_symbol_without_a_size_covers_its_value_alone(
    rt: HostRuntime,
) -> std::result::Result<(), Fail> {
    let mut checks = Checks::new();
    let image = sizeless_dynamic_symbol(rt.alloc()).expect(&rt, "refused");
    check_found(
        &mut checks,
        rt.alloc(),
        &image,
        &[(0x90, "unknown address"), (0x40, "S")],
    )
    .expect(&rt, "refused");
    checks.result()
}

#[test]
fn what_was_prepared_is_kept_without_the_image(rt: HostRuntime) -> std::result::Result<(), Fail> {
    let mut checks = Checks::new();
    let alloc = rt.alloc();
    let image = nested_functions(alloc).expect(&rt, "refused");
    let mut parser = ElfParser::from_mem(alloc, &image, Some("first"));
    parser.prepare(alloc, &mut ByStdSort).expect(&rt, "refused");
    let warm = parser.into_warm();
    let module = Some("second");
    let kept = ElfParser::from_warm(&image, module, warm);
    checks.holds(kept.is_prepared());
    for (addr, name) in [(15u64, "B"), (5, "A"), (50, "none")] {
        let answer = match kept.find_sym_prepared(addr).expect(&rt, "refused") {
            Answer::Sym(symbol) => symbol.name,
            Answer::NoSym(_) => "none",
        };
        checks.same((addr, answer), (addr, name));
    }
    checks.result()
}
