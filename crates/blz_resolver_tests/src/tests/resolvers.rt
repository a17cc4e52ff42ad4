//! Resolvers of both kinds, with debug information and by symbols alone, by each of their calls.
use super::built::LITTLE4;
use super::functions::nested;
use blz_bytes::ByStdSort;
use blz_checks::Checks;
use blz_elf::{Answer, Collect, FindAddrOpts, FindSymOpts, SymInfo};
use blz_error::Result;
use blz_images::{ByteOrder, realistic_walk, same_start};
use blz_resolver::{Bundle, Command, ElfResolver, Reply, replies};
use blz_runs::lone;
use std::alloc::{AllocError, Global};
use std::test::Fail;

/// A function that is the first of its file: its name, its first address and its size.
#[derive(Clone, Copy)]
struct Place<'a> {
    name: &'a str,
    addr: u64,
    size: u64,
}

fn is_answer(answer: &Answer<'_>, place: &Place<'_>) -> bool {
    match answer {
        Answer::Sym(found) => {
            found.name == place.name && found.addr == place.addr && found.size == Some(place.size)
        }
        Answer::NoSym(_) => false,
    }
}

fn is_symbol(
    alloc: Global,
    resolver: &mut ElfResolver<'_>,
    addr: u64,
    place: &Place<'_>,
) -> Result<bool> {
    let answer = resolver.find_sym(alloc, &mut ByStdSort, addr, &FindSymOpts::Basic)?;
    Ok(is_answer(&answer, place))
}

fn are_infos(infos: &[SymInfo<'_>], place: &Place<'_>) -> bool {
    let [info] = infos else {
        return false;
    };
    info.name == place.name && info.addr == place.addr && info.size == Some(place.size)
}

fn is_named(alloc: Global, resolver: &mut ElfResolver<'_>, place: &Place<'_>) -> Result<bool> {
    let opts = FindAddrOpts::default();
    let infos = resolver.find_addr(alloc, &mut ByStdSort, place.name, &opts)?;
    Ok(are_infos(infos.as_slice(), place))
}

// whether a visitor that breaks at the first function is shown this one
fn is_shown_alone(
    alloc: Global,
    resolver: &mut ElfResolver<'_>,
    place: &Place<'_>,
) -> Result<bool> {
    let mut shown = Collect::new(alloc, Some(1));
    resolver.for_each(alloc, &mut ByStdSort, &FindAddrOpts::default(), &mut shown)?;
    match shown.infos() {
        [info] => Ok(are_infos(&[info.as_info()], place)),
        _ => Ok(false),
    }
}

fn is_printed(
    alloc: Global,
    resolver: &ElfResolver<'_>,
    wanted: &str,
) -> std::result::Result<bool, AllocError> {
    let text = format!(in alloc; "{resolver:?}")?;
    Ok(text.as_str() == wanted)
}

/// Whether the symbol of an address, the symbols of its name, the first that is shown, and the printed text are as wanted.
type Asked = [bool; 4];

fn asked(
    alloc: Global,
    resolver: &mut ElfResolver<'_>,
    addr: u64,
    place: &Place<'_>,
    text: &str,
) -> Result<Asked> {
    let found = is_symbol(alloc, resolver, addr, place)?;
    let named = is_named(alloc, resolver, place)?;
    let shown = is_shown_alone(alloc, resolver, place)?;
    let printed = is_printed(alloc, resolver, text)?;
    Ok([found, named, shown, printed])
}

fn by_symbols(alloc: Global) -> Result<Asked> {
    let place = Place {
        name: "A",
        addr: 0,
        size: 100,
    };
    let image = same_start(alloc)?;
    let mut resolver = ElfResolver::from_bundle_elf(alloc, &lone(&image));
    asked(alloc, &mut resolver, 50, &place, "ElfParser(\"<unknown>\")")
}

fn by_debug_information(alloc: Global) -> Result<Asked> {
    let place = Place {
        name: "first",
        addr: 0x10,
        size: 0x20,
    };
    let image = nested(alloc, LITTLE4)?;
    let bundle = Bundle {
        module: Some("program"),
        ..lone(&image)
    };
    let mut resolver = ElfResolver::from_bundle(alloc, &mut ByStdSort, &bundle)?;
    asked(
        alloc,
        &mut resolver,
        0x2a,
        &place,
        "DwarfResolver(\"program\")",
    )
}

#[test]
fn a_resolver_of_each_kind_answers_each_call(rt: HostRuntime) -> std::result::Result<(), Fail> {
    let mut checks = Checks::new();
    checks.gives(by_symbols(rt.alloc()), [true; 4]);
    checks.gives(by_debug_information(rt.alloc()), [true; 4]);
    checks.result()
}

const MAIN: Place<'static> = Place {
    name: "main",
    addr: 0x1140,
    size: 0x40,
};

// whether a reply is that of its kind of call; no segment holds a place of the file
fn is_expected(reply: &Reply<'_>) -> bool {
    match reply {
        Reply::Symbol(Ok(answer)) => is_answer(answer, &MAIN),
        Reply::Addresses(Ok(infos)) => are_infos(infos.as_slice(), &MAIN),
        Reply::Place(Ok(place)) => place.is_none(),
        Reply::Count(count) => *count == 2,
        Reply::Prepared(Ok(())) => true,
        _ => false,
    }
}

fn count_expected(replies: &[Reply<'_>]) -> usize {
    let mut count: usize = 0;
    for reply in replies {
        if is_expected(reply) {
            count = count.saturating_add(1);
        }
    }
    count
}

// how many replies to a list of calls are as expected
fn expected_of(alloc: Global, image: &[u8], commands: &[Command]) -> Result<usize> {
    let mut resolver = ElfResolver::from_bundle(alloc, &mut ByStdSort, &lone(image))?;
    let replies = replies(alloc, &mut ByStdSort, &mut resolver, commands)?;
    Ok(count_expected(&replies))
}

fn expected_of_six(alloc: Global) -> Result<usize> {
    let image = realistic_walk(alloc, ByteOrder::Little)?;
    let name = String::from_str(alloc, "main")?;
    let commands = [
        Command::FindSym(0x1150, FindSymOpts::CodeInfoAndInlined),
        Command::FindAddr(name, FindAddrOpts::default()),
        Command::FileOffset(0x40),
        Command::UnitCount,
        Command::Prepare,
        Command::FindSym(0x1150, FindSymOpts::Basic),
    ];
    expected_of(alloc, &image, &commands)
}

#[test]
fn each_call_of_a_list_has_its_reply(rt: HostRuntime) -> std::result::Result<(), Fail> {
    let mut checks = Checks::new();
    checks.gives(expected_of_six(rt.alloc()), 6);
    checks.result()
}
