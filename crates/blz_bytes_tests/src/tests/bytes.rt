//! Readers of bytes, checked orders, a map that keeps what was first put, and paths.

ghost use Rattle.std.specs.Prelude.{◌≡◌, ◌<◌};

use blz_bytes::{
    AsTheyStand, ByStdSort, ByteOrder, Counted, Cursor, DirPath, InsertMap, Key, NameSpan, Orders,
    Pod, ReadRaw, Steps, align_up_u32, align_up_usize, bytes_to_path, check_names, check_pairs,
};
use blz_checks::Checks;
use blz_error::{Error, ErrorKind, Str};
use std::marker::Brand;
use std::sync::ledger::{Blank, Ledger};
use std::test::Fail;

fn key(first: u64) -> Key {
    Key { first, second: 0 }
}

#[test]
fn reads_numbers_in_the_order_of_the_cursor() -> Result<(), Fail> {
    let mut checks = Checks::new();
    let mut big = Cursor::with_order(&[1, 2, 3, 4], ByteOrder::Big);
    checks.same(big.read_u16(), Some(0x0102));
    checks.same(big.read_u16(), Some(0x0304));
    checks.same(big.read_u8(), None);
    let mut little = Cursor::new(&[1, 2, 3, 4, 5, 6, 7, 8, 9, 10, 11, 12]);
    checks.same(little.read_u64(), Some(0x0807_0605_0403_0201));
    checks.same(little.read_u32(), Some(0x0c0b_0a09));
    checks.result()
}

#[test]
fn reads_leb128_numbers() -> Result<(), Fail> {
    let mut checks = Checks::new();
    checks.same(
        Cursor::new(&[0xe5, 0x8e, 0x26]).read_u64_leb128(),
        Some(624_485),
    );
    let greatest_bit = [0x80, 0x80, 0x80, 0x80, 0x80, 0x80, 0x80, 0x80, 0x80, 1];
    checks.same(Cursor::new(&greatest_bit).read_u64_leb128(), Some(1 << 63));
    let mut past = Cursor::new(&[0x80, 0x80, 0x80, 0x80, 0x80, 0x80, 0x80, 0x80, 0x80, 2]);
    checks.same(past.read_u64_leb128(), None);
    checks.same(past.position(), 0);
    checks.same(Cursor::new(&[0x80, 0x7f]).read_i64_leb128(), Some(-128));
    checks.result()
}

// the calls of any source of bytes
fn text_after<'d, R: ReadRaw<'d>>(source: &mut R, skipped: usize) -> Option<&'d [u8]> {
    source.ensure(skipped)?;
    source.advance(skipped)?;
    source.align(4)?;
    source.read_cstr()
}

#[test]
fn passes_over_bytes_to_a_text() -> Result<(), Fail> {
    let mut checks = Checks::new();
    let mut source = Cursor::new(b"12345678ab\0rest");
    checks.same(text_after(&mut source, 5), Some(b"ab".as_slice()));
    checks.same(source.rest(), b"rest".as_slice());
    checks.same(source.read_cstr(), None);
    checks.same(source.peek_array::<2>(), Some([b'r', b'e']));
    checks.same(source.read_array::<2>(), Some([b'r', b'e']));
    checks.same(source.read_slice(3), None);
    checks.same(source.read_slice(2), Some(b"st".as_slice()));
    checks.result()
}

#[test]
fn reads_plain_values(rt: HostRuntime) -> Result<(), Fail> {
    let mut checks = Checks::new();
    let mut source = Cursor::with_order(&[0xff, 0xfe, 0, 1, 0, 2, 7], ByteOrder::Big);
    checks.same(source.read_pod::<i16>(), Some(-2));
    let numbers = source
        .read_pods::<u16>(rt.alloc(), 2)
        .expect(&rt, "refused")
        .expect(&rt, "too few");
    checks.same(numbers.as_slice(), [1, 2].as_slice());
    checks.holds(
        source
            .read_pods::<u16>(rt.alloc(), 1)
            .expect(&rt, "refused")
            .is_none(),
    );
    checks.same(u8::read_le(source.rest()), 7);
    checks.result()
}

#[test]
fn accepts_rising_triples_alone() -> Result<(), Fail> {
    let mut checks = Checks::new();
    let keys = [key(5), key(3), key(5)];
    checks.holds(check_pairs(&keys, &[1, 0, 2]));
    checks.holds(!check_pairs(&keys, &[1, 2, 0]));
    checks.holds(!check_pairs(&keys, &[0, 0, 0]));
    checks.holds(!check_pairs(&keys, &[1, 0]));
    checks.holds(!check_pairs(&keys, &[1, 0, 3]));
    let symbols = [
        Key {
            first: 0,
            second: u64::MAX - 100,
        },
        Key {
            first: 0,
            second: u64::MAX - 10,
        },
    ];
    checks.holds(check_pairs(&symbols, &[0, 1]));
    checks.holds(!check_pairs(&symbols, &[1, 0]));
    checks.result()
}

#[test]
fn accepts_what_the_sort_finds(rt: HostRuntime) -> Result<(), Fail> {
    let mut checks = Checks::new();
    let keys = [key(5), key(3), key(5)];
    let mut places = [0, 1, 2];
    AsTheyStand.by_pair(&keys, &mut places);
    checks.holds(!check_pairs(&keys, &places));
    ByStdSort.by_pair(&keys, &mut places);
    checks.holds(check_pairs(&keys, &places));
    let strs = b"beta\0alpha\0";
    let names = [
        NameSpan { start: 0, len: 4 },
        NameSpan { start: 5, len: 5 },
        NameSpan { start: 5, len: 5 },
    ];
    let mut named = [0, 1, 2];
    AsTheyStand.by_name(strs, &names, &mut named);
    checks.holds(!check_names(strs, &names, &named));
    ByStdSort.by_name(strs, &names, &mut named);
    checks.same(named, [1, 2, 0]);
    checks.holds(check_names(strs, &names, &named));
    checks.result()
}

#[test]
fn keeps_the_value_that_was_put_first(rt: HostRuntime) -> Result<(), Fail> {
    let mut checks = Checks::new();
    let mut map: InsertMap<u64, char> = InsertMap::new(rt.alloc());
    checks.gives(map.get_or_insert(42, || 'a'), &'a');
    checks.gives(map.get_or_insert(42, || 'b'), &'a');
    let unsupported = || -> Result<char, Error> {
        Err(Error::new(ErrorKind::Unsupported, Str::fixed("unsupported")))
    };
    match map.get_or_try_insert(31, unsupported) {
        Ok(_) => checks.holds(false),
        Err(e) => checks.same(e.kind(), ErrorKind::Unsupported),
    }
    checks.same(map.get(&31), None);
    checks.same(map.remove(&42), Some('a'));
    checks.same(map.len(), 0);
    checks.result()
}

#[test]
fn retains_by_key_and_value(rt: HostRuntime) -> Result<(), Fail> {
    let mut checks = Checks::new();
    let mut map: InsertMap<u64, u64> = InsertMap::new(rt.alloc());
    for n in 0..4 {
        let place = map
            .try_insert(n, || -> Result<u64, Error> { Ok(10 - n.min(10)) })
            .expect(&rt, "refused");
        checks.same(*map.at(place), 10 - n.min(10));
    }
    map.retain(|key, value| *key != 1 && *value > 7);
    checks.same(map.len(), 2);
    checks.same(map.get(&2), Some(&8));
    checks.same(map.get(&3), None);
    checks.result()
}

#[test]
fn joins_paths(rt: HostRuntime) -> Result<(), Fail> {
    let mut checks = Checks::new();
    let joined = [
        (
            b"/usr".as_slice(),
            b"lib".as_slice(),
            b"/usr/lib".as_slice(),
        ),
        (b"/usr/", b"lib", b"/usr/lib"),
        (b"", b"lib", b"lib"),
        (b"/usr", b"/lib", b"/lib"),
        (b"/usr", b"", b"/usr/"),
    ];
    for (head, tail, want) in joined {
        let path = DirPath::joined(head, tail);
        let mut out = b"at ".to_vec(rt.alloc()).expect(&rt, "refused");
        path.write_to(&mut out).expect(&rt, "refused");
        checks.same(out.get(3..), Some(want));
        checks.same(path.len(), want.len());
        checks.same(path.byte_at(4), want.get(4).copied());
    }
    checks.same(DirPath::new(b"ab").byte_at(2), None);
    checks.result()
}

#[test]
fn aligns_and_reads_paths() -> Result<(), Fail> {
    let mut checks = Checks::new();
    checks.same(align_up_u32(5, 4), 8);
    checks.same(align_up_usize(8, 8), 8);
    match bytes_to_path(b"/usr/lib") {
        Ok(path) => checks.same(path, "/usr/lib"),
        Err(_) => checks.holds(false),
    }
    match bytes_to_path(&[0x66, 0xff]) {
        Ok(_) => checks.holds(false),
        Err(e) => checks.same(e.kind(), ErrorKind::InvalidData),
    }
    checks.result()
}

// the first and the third entry
fn two_looks<L: Ledger>(list: &Counted<u64>, blank: Blank) -> (Option<u64>, Option<u64>)
    requires name { blank.name ≡ L.name }
    requires parts { blank.parts ≡ L.parts }
    requires some { 0 < blank.parts }
{
    let mut steps: Steps<L> = Steps::new(blank);
    (list.look(0, &mut steps), list.look(2, &mut steps))
}

#[test]
fn gives_an_entry_for_a_step(rt: HostRuntime) -> Result<(), Fail> {
    let mut checks = Checks::new();
    let list = Counted::new([5, 6].to_vec(rt.alloc()).expect(&rt, "refused"));
    checks.same(list.len(), 2);
    checks.same(two_looks::<Brand>(&list, Blank::new(1)), (Some(5), None));
    checks.result()
}
