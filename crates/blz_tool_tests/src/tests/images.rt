//! Images of either class and order.
use crate::tests::runs::{holding, written};
use blz_checks::Checks;
use blz_images::{ByteOrder, Image, realistic_walk, with_nested_functions};
use std::test::Fail;

pub const WORDS: [&str; 5] = ["prog", "1150", "1200", "1100", "1300"];

pub const TEXT: &str = "0000000000001150 main at /home/u/p/main.c:7:9
    square at /home/u/p/sq.h:3:12
0000000000001200 _ZN3lib3run17h0123456789abcdefE at /home/u/p/src/lib.rs:10:1
0000000000001100 _start
0000000000001300 ?? (unknown address)
";

#[test]
fn an_executable_of_either_order_has_its_text(rt: HostRuntime) -> Result<(), Fail> {
    let mut checks = Checks::new();
    let alloc = rt.alloc();
    for order in [ByteOrder::Little, ByteOrder::Big] {
        let mut files = holding(
            alloc,
            "prog",
            realistic_walk(alloc, order).expect(&rt, "refused"),
        )
        .expect(&rt, "refused");
        let out = written(alloc, &mut files, &WORDS).expect(&rt, "refused");
        checks.same(out.bytes(), TEXT.as_bytes());
    }
    checks.result()
}

#[test]
fn an_image_of_either_class_and_order_has_its_text(rt: HostRuntime) -> Result<(), Fail> {
    let mut checks = Checks::new();
    let alloc = rt.alloc();
    let images = [
        with_nested_functions(Image::elf32(alloc)).expect(&rt, "refused"),
        with_nested_functions(Image::elf64(alloc)).expect(&rt, "refused"),
        with_nested_functions(Image::elf64(alloc).big_endian()).expect(&rt, "refused"),
    ];
    for image in images {
        let mut files = holding(alloc, "a.elf", image).expect(&rt, "refused");
        let out = written(alloc, &mut files, &["a.elf", "f"]).expect(&rt, "refused");
        checks.same(out.bytes(), b"000000000000000f B\n".as_slice());
    }
    checks.result()
}
