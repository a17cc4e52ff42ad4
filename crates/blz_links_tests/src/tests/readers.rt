//! The links of whole images.
use blz_checks::Checks;
use blz_elf::ElfParser;
use blz_error::ErrorKind;
use blz_images::{
    ByteOrder, Image, debug_altlink, debug_link, debug_sup, with_compressed_section, with_section,
};
use blz_links::{read_debug_altlink, read_debug_link, read_debug_sup};
use std::test::Fail;

#[test]
fn the_link_of_an_image_is_read_in_its_order(rt: HostRuntime) -> Result<(), Fail> {
    let mut checks = Checks::new();
    let alloc = rt.alloc();
    let link = debug_link(alloc, ByteOrder::Big, "a.debug", 7).expect(&rt, "refused");
    let image = Image::elf32(alloc).big_endian();
    let image = image
        .section(".gnu_debuglink", 1, link.as_slice())
        .expect(&rt, "refused")
        .bytes()
        .expect(&rt, "refused");
    let mut parser = ElfParser::from_mem(alloc, image.as_slice(), None);
    let link = read_debug_link(&mut parser)
        .expect(&rt, "refused")
        .expect(&rt, "a link");
    checks.same(link.file, "a.debug");
    checks.same(link.checksum, 7);
    checks.result()
}

#[test]
fn an_altlink_is_read(rt: HostRuntime) -> Result<(), Fail> {
    let mut checks = Checks::new();
    let alloc = rt.alloc();
    let link = debug_altlink(alloc, "/sup.debug", b"build id").expect(&rt, "refused");
    let image = with_section(alloc, ".gnu_debugaltlink", &link).expect(&rt, "refused");
    let mut parser = ElfParser::from_mem(alloc, image.as_slice(), None);
    let link = read_debug_altlink(&mut parser)
        .expect(&rt, "refused")
        .expect(&rt, "a link");
    checks.same(link.path, "/sup.debug");
    checks.same(link.build_id, b"build id".as_slice());
    checks.result()
}

#[test]
fn a_supplementary_file_says_that_it_is_one(rt: HostRuntime) -> Result<(), Fail> {
    let mut checks = Checks::new();
    let alloc = rt.alloc();
    let sup = debug_sup(alloc, ByteOrder::Little, "", b"sum").expect(&rt, "refused");
    let image = with_section(alloc, ".debug_sup", &sup).expect(&rt, "refused");
    let mut parser = ElfParser::from_mem(alloc, image.as_slice(), None);
    let sup = read_debug_sup(&mut parser)
        .expect(&rt, "refused")
        .expect(&rt, "what the file says");
    checks.holds(sup.is_supplementary);
    checks.holds(sup.path.is_none());
    checks.same(sup.checksum, b"sum".as_slice());
    checks.result()
}

#[test]
fn an_image_that_is_broken_or_has_no_section_has_no_link(rt: HostRuntime) -> Result<(), Fail> {
    let mut checks = Checks::new();
    let alloc = rt.alloc();
    let image = Image::elf64(alloc)
        .symbol("A", 0, 100)
        .expect(&rt, "refused")
        .bytes()
        .expect(&rt, "refused");
    let mut parser = ElfParser::from_mem(alloc, image.as_slice(), None);
    checks.holds(matches!(read_debug_link(&mut parser), Ok(None)));
    let mut broken = ElfParser::from_mem(alloc, b"xx", None);
    checks.holds(matches!(read_debug_link(&mut broken), Ok(None)));
    checks.result()
}

#[test]
fn a_compressed_link_is_unsupported(rt: HostRuntime) -> Result<(), Fail> {
    let mut checks = Checks::new();
    let alloc = rt.alloc();
    let image = with_compressed_section(alloc, ".gnu_debuglink").expect(&rt, "refused");
    let mut parser = ElfParser::from_mem(alloc, image.as_slice(), None);
    match read_debug_link(&mut parser) {
        Err(e) => checks.same(e.kind(), ErrorKind::Unsupported),
        Ok(_) => checks.holds(false),
    }
    checks.result()
}
