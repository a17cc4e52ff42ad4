//! What is folded from stacks.

use blz_bytes::ByStdSort;
use blz_checks::Checks;
use blz_error::{Error, ErrorKind, Str};
use blz_fold::{Folded, Names, fold, parse_stacks};
use blz_images::realistic_walk;
use blz_model::ByteOrder;
use blz_runs::lone;
use std::alloc::Global;
use std::test::Fail;

const RUST: &str = "_ZN3lib3run17h0123456789abcdefE";

// Three stacks over two functions, of which the first has an inlined call.
const STACKS: &[u8] = b"3 1140;1150\n2 1140;1200\n4 1140;1150\n";

fn are(names: &Names, texts: &[&str]) -> bool {
    names.len() == texts.len()
        && names
            .as_slice()
            .iter()
            .zip(texts)
            .all(|(name, text)| name.as_str() == *text)
}

// what is folded from the three stacks
fn folded(alloc: Global) -> blz_error::Result<Folded> {
    let image = realistic_walk(alloc, ByteOrder::Little)?;
    let Ok(stacks) = parse_stacks(alloc, STACKS) else {
        let refused = Str::fixed("the stacks are refused");
        return Err(Error::new(ErrorKind::InvalidData, refused));
    };
    fold(alloc, &mut ByStdSort, &lone(&image), &stacks)
}

// The 64-bit hash FNV-1a.
fn hash_of(bytes: &[u8]) -> u64 {
    let mut hash: u64 = 0xcbf2_9ce4_8422_2325;
    for byte in bytes {
        hash = (hash ^ u64::from(*byte)).wrapping_mul(0x100_0000_01b3);
    }
    hash
}

// The file of the stored run is crates/blz_fold_main/data/prog, which scripts/images/make_fold_image.py makes.
#[test]
fn the_image_is_that_of_the_stored_run(rt: HostRuntime) -> Result<(), Fail> {
    let mut checks = Checks::new();
    let image = realistic_walk(rt.alloc(), ByteOrder::Little).expect(&rt, "refused");
    checks.same(image.len(), 1769);
    checks.same(hash_of(&image), 0x44e0_c6bd_7a9b_c0f5);
    checks.result()
}

#[test]
fn lines_have_the_sum_of_equal_stacks(rt: HostRuntime) -> Result<(), Fail> {
    let mut checks = Checks::new();
    let folded = folded(rt.alloc()).expect(&rt, "refused");
    let wanted: [(&[&str], u64); 2] = [(&["main", "main", "square"], 7), (&["main", RUST], 2)];
    checks.same(folded.lines().len(), 2);
    for (line, (names, count)) in folded.lines().iter().zip(wanted) {
        checks.holds(are(&line.names, names));
        checks.same(line.count, count);
    }
    checks.result()
}

#[test]
fn nodes_have_the_sum_of_stacks_that_begin_with_them(rt: HostRuntime) -> Result<(), Fail> {
    let mut checks = Checks::new();
    let folded = folded(rt.alloc()).expect(&rt, "refused");
    let wanted: [(u64, u64, &[&str]); 4] = [
        (9, 0, &["main"]),
        (7, 0, &["main", "main"]),
        (7, 7, &["main", "main", "square"]),
        (2, 2, &["main", RUST]),
    ];
    checks.same(folded.nodes().len(), 4);
    for (node, (count, own, names)) in folded.nodes().iter().zip(wanted) {
        checks.holds(are(&node.names, names));
        checks.holds(node.names.get(names.len()).is_none());
        checks.same((node.count, node.own), (count, own));
    }
    checks.result()
}

#[test]
fn the_first_mark_refuses_all(rt: HostRuntime) -> Result<(), Fail> {
    let mut checks = Checks::new();
    let Ok(stacks) = parse_stacks(rt.alloc(), b"") else {
        panic!(rt; "refused");
    };
    match fold(rt.alloc(), &mut ByStdSort, &lone(b"short"), &stacks) {
        Ok(_) => panic!(rt; "folded"),
        Err(error) => checks.same(error.kind(), ErrorKind::InvalidData),
    }
    checks.result()
}
