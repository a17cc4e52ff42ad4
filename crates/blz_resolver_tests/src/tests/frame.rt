//! Bundles that are refused before an address is asked, with the kinds that are known by hand.
use super::built::Built;
use super::shown::{names, refusal_of};
use blz_checks::Checks;
use blz_error::{ErrorKind, Result};
use blz_images::{Image, Section, nested_functions, with_section};
use blz_resolver::{Bundle, Companion};
use blz_runs::{lone, refusal};
use std::alloc::Global;
use std::test::Fail;

// why an image beside an empty package is refused
fn beside_an_empty_package(alloc: Global) -> Result<Option<ErrorKind>> {
    let image = nested_functions(alloc)?;
    let with_package = Bundle {
        package: Some(Companion {
            image: b"",
            module: None,
        }),
        ..lone(&image)
    };
    Ok(refusal(names(alloc, &with_package, &[])))
}

#[test]
fn the_headers_of_units_and_a_package_are_read_without_addresses(
    rt: HostRuntime,
) -> std::result::Result<(), Fail> {
    let mut checks = Checks::new();
    let alloc = rt.alloc();
    let short = with_section(alloc, ".debug_info", b"unit");
    checks.same(refusal_of(alloc, short, &[]), Some(ErrorKind::InvalidDwarf));
    checks.gives(beside_an_empty_package(alloc), Some(ErrorKind::InvalidData));
    checks.result()
}

// an image of a type with relocations (SHT_RELA), whose symbols are in a section that is not there
fn with_relocations(alloc: Global, file_type: u16) -> Built {
    let entries = Section::new(".rela.text", 4, b"").linked(9, 1);
    let image = Image::elf64(alloc).file_type(file_type);
    image.add_section(entries)?.bytes()
}

#[test]
fn only_a_relocatable_file_has_its_relocations_read(
    rt: HostRuntime,
) -> std::result::Result<(), Fail> {
    let mut checks = Checks::new();
    let alloc = rt.alloc();
    // ET_EXEC and ET_REL
    for (file_type, refused) in [(2, None), (1, Some(ErrorKind::InvalidInput))] {
        let image = with_relocations(alloc, file_type);
        checks.same(refusal_of(alloc, image, &[]), refused);
    }
    checks.result()
}
