//! Files whose symbols are listed.
use super::shown::{nested_files, source};
use blz_bytes::ByStdSort;
use blz_checks::Checks;
use blz_elf::{Collect, SymInfoBuf};
use blz_error::Result;
use blz_inspector::Inspector;
use std::alloc::Global;
use std::test::Fail;

fn are_at(infos: &[SymInfoBuf], places: [u64; 2]) -> bool {
    let [first, second] = infos else {
        return false;
    };
    first.file_offset == Some(places[0]) && second.file_offset == Some(places[1])
}

fn listed(alloc: Global, places: [u64; 2]) -> Result<bool> {
    let mut files = nested_files(alloc)?;
    let symbols = source(alloc, "a.elf", false)?;
    let mut inspector = Inspector::new(alloc);
    let mut shown = Collect::new(alloc, None);
    inspector.for_each(alloc, &mut files, &mut ByStdSort, &symbols, &mut shown)?;
    Ok(are_at(shown.infos(), places))
}

#[test]
fn all_symbols_are_shown_with_their_places_in_the_file(
    rt: HostRuntime,
) -> std::result::Result<(), Fail> {
    let mut checks = Checks::new();
    // the first section is at 320 bytes, behind a header and four section headers of 64 bytes
    checks.gives(listed(rt.alloc(), [320, 330]), true);
    checks.result()
}
