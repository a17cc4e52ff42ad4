//! Orders that are handed in, true ones and false ones.
ghost use Rattle.std.specs.Prelude.{None};

use blz_bytes::{AsTheyStand, ByStdSort, Key, NameSpan, Orders, check_pairs};
use blz_checks::Checks;
use blz_elf::{Answer, ElfParser, FindAddrOpts, FindSymOpts};
use blz_error::Result;
use blz_images::{ByteOrder, Class, Image, Writer};
use std::alloc::{AllocError, Global};
use std::test::Fail;

/// Gives two places, and keeps what it was asked and whether they pass the check.
#[derive(Drop)]
struct TwoPlaces {
    places: [usize; 2],
    keys: [Key; 2],
    accepted: bool,
}

impl Orders for TwoPlaces {
    ghost pair_places = { None };

    ghost name_places = { None };

    fn by_pair(&mut self, keys: &[Key], places: &mut [usize]) {
        if keys.len() == 2 && places.len() == 2 {
            self.keys = [keys[0], keys[1]];
            places[0] = self.places[0];
            places[1] = self.places[1];
        }
        self.accepted = check_pairs(keys, places);
    }

    fn by_name(&mut self, _strs: &[u8], _names: &[NameSpan], _places: &mut [usize]) {}
}

// a function that is defined in the first section, in 64 bits
fn write_function(out: &mut Writer, name: u32, value: u64, size: u64) -> Result<()> {
    out.u32(name)?;
    out.u8(2)?;
    out.u8(0)?;
    out.u16(1)?;
    out.u64(value)?;
    Ok(out.u64(size)?)
}

// the name of a symbol that answers
fn name_of<'b>(answer: &Answer<'b>) -> &'b str {
    match answer {
        Answer::Sym(symbol) => symbol.name,
        Answer::NoSym(_) => "none",
    }
}

// six symbols of the value 30, in no order of their sizes
fn many_of_one_value(alloc: Global) -> std::result::Result<Vec<u8>, AllocError> {
    Image::elf64(alloc)
        .undefined_symbol("U", 30, 50)?
        .symbol("small", 30, 2)?
        .symbol("A", 30, 8)?
        .symbol("same", 30, 8)?
        .symbol("Z", 30, 0)?
        .symbol("later", 30, 0)?
        .bytes()
}

#[test]
fn of_many_symbols_of_one_value_the_order_gives_the_covering_one(
    rt: HostRuntime,
) -> std::result::Result<(), Fail> {
    let mut checks = Checks::new();
    let alloc = rt.alloc();
    let image = many_of_one_value(alloc).expect(&rt, "refused");
    for (addr, name) in [(30, "A"), (37, "A"), (38, "Z"), (1000, "Z"), (29, "none")] {
        let mut parser = ElfParser::from_mem(alloc, &image, None);
        for _ in 0..2 {
            let answer = parser
                .find_sym(alloc, &mut ByStdSort, addr, &FindSymOpts::Basic)
                .expect(&rt, "refused");
            checks.same(name_of(&answer), name);
        }
    }
    checks.result()
}

// two functions of the value 0, the larger first, in a table of their own
fn two_of_one_value(alloc: Global) -> Result<Vec<u8>> {
    let mut table = Writer::new(alloc, Class::Elf64, ByteOrder::Little);
    write_function(&mut table, 1, 0, 100)?;
    write_function(&mut table, 3, 0, 10)?;
    let image = Image::elf64(alloc)
        .section(".symtab", 2, table.bytes())?
        .section(".strtab", 3, b"\0A\0B\0")?;
    Ok(image.bytes()?)
}

#[test]
fn symbols_are_asked_for_by_value_then_from_the_largest_down(
    rt: HostRuntime,
) -> std::result::Result<(), Fail> {
    let mut checks = Checks::new();
    let alloc = rt.alloc();
    let image = two_of_one_value(alloc).expect(&rt, "refused");
    let none = Key {
        first: 1,
        second: 1,
    };
    for (places, accepted) in [([0usize, 1usize], true), ([1, 0], false)] {
        let mut orders = TwoPlaces {
            places,
            keys: [none, none],
            accepted: !accepted,
        };
        let mut parser = ElfParser::from_mem(alloc, &image, None);
        // the first is found without an order
        for _ in 0..2 {
            let answer = parser
                .find_sym(alloc, &mut orders, 50, &FindSymOpts::Basic)
                .expect(&rt, "refused");
            checks.same(name_of(&answer), "A");
        }
        checks.same(orders.accepted, accepted);
        checks.same(orders.keys[0].first, 0);
        checks.same(orders.keys[0].second, u64::MAX - 100);
        checks.same(orders.keys[1].first, 0);
        checks.same(orders.keys[1].second, u64::MAX - 10);
    }
    checks.result()
}

/// Puts one place everywhere.
#[derive(Drop)]
struct Everywhere {
    place: usize,
}

impl Orders for Everywhere {
    ghost pair_places = { None };

    ghost name_places = { None };

    fn by_pair(&mut self, _keys: &[Key], places: &mut [usize]) {
        places.fill(self.place);
    }

    fn by_name(&mut self, _strs: &[u8], _names: &[NameSpan], places: &mut [usize]) {
        places.fill(self.place);
    }
}

// the addresses of the symbols of a name, in their order, in decimal
fn addresses<O: Orders>(
    alloc: Global,
    orders: &mut O,
    image: &[u8],
    name: &str,
) -> Result<Vec<u64>> {
    let mut parser = ElfParser::from_mem(alloc, image, None);
    let infos = parser
        .find_addr(alloc, orders, name, &FindAddrOpts::default())?
        .into_vec();
    let mut addresses = Vec::new(alloc);
    for info in &infos {
        addresses.push(info.addr)?;
    }
    Ok(addresses)
}

// two symbols `A` and others around them
fn two_of_a_name(alloc: Global) -> std::result::Result<Vec<u8>, AllocError> {
    Image::elf64(alloc)
        .symbol("B", 30, 4)?
        .symbol("A", 20, 4)?
        .undefined_symbol("A", 25, 0)?
        .symbol("AB", 40, 4)?
        .symbol("A", 10, 4)?
        .bytes()
}

#[test]
fn lists_the_symbols_of_a_name_whatever_order_comes(
    rt: HostRuntime,
) -> std::result::Result<(), Fail> {
    let mut checks = Checks::new();
    let alloc = rt.alloc();
    let image = two_of_a_name(alloc).expect(&rt, "refused");
    let listed: [u64; 2] = [20, 10];
    let by_name = addresses(alloc, &mut ByStdSort, &image, "A").expect(&rt, "refused");
    checks.same(by_name.as_slice(), listed.as_slice());
    let by_scan = addresses(alloc, &mut AsTheyStand, &image, "A").expect(&rt, "refused");
    checks.same(by_scan.as_slice(), listed.as_slice());
    for place in [0usize, 7, usize::MAX] {
        let by_lie = addresses(alloc, &mut Everywhere { place }, &image, "A").expect(
            &rt, "refused",
        );
        checks.same(by_lie.as_slice(), listed.as_slice());
    }
    for name in ["", "AA", "C"] {
        checks.holds(
            addresses(alloc, &mut ByStdSort, &image, name)
                .expect(&rt, "refused")
                .is_empty(),
        );
    }
    checks.result()
}
