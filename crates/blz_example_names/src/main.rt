//! A caller of the library: finds a file's symbols by their name, and lists the rows of its first unit.
#![tactic(auto)]

use blz_bytes::ByStdSort;
use blz_elf::FindAddrOpts;
use blz_error::Result;
use blz_resolver::ElfResolver;
use blz_resolver::outside::RealFiles;
use std::alloc::Global;
use std::fmt::Write;
use std::process::ExitCode;
use std::rt::Files;

// Appends where the symbols named `main` begin: functions and variables.
fn push_main(alloc: Global, text: &mut String, resolver: &mut ElfResolver<'_>) -> Result<()> {
    let options = FindAddrOpts::default();
    let found = resolver.find_addr(alloc, &mut ByStdSort, "main", &options)?;
    for info in found.as_slice() {
        writeln!(text, "{} begins at {:x}", info.name, info.addr)?;
    }
    Ok(())
}

// Appends the addresses and lines of the first unit's rows.
fn push_rows(alloc: Global, text: &mut String, resolver: &mut ElfResolver<'_>) -> Result<()> {
    if resolver.unit_count() == 0 {
        return Ok(());
    }
    let Some(rows) = resolver.unit_rows(alloc, &mut ByStdSort, 0)? else {
        return Ok(());
    };
    for sequence in rows.sequences() {
        for row in sequence.rows() {
            writeln!(text, "{:x} begins line {}", row.address, row.line)?;
        }
    }
    Ok(())
}

fn report(rt: &(impl Files + AllocGlobal), path: &str) -> Result<String> {
    let alloc = rt.alloc();
    let owned = ElfResolver::open(alloc, &mut RealFiles::new(rt), path)?;
    let mut resolver = ElfResolver::from_bundle(alloc, &mut ByStdSort, &owned.bundle())?;
    let mut text = String::new(alloc);
    push_main(alloc, &mut text, &mut resolver)?;
    push_rows(alloc, &mut text, &mut resolver)?;
    Ok(text)
}

fn main(rt: HostRuntime) -> ExitCode {
    match report(&rt, "prog") {
        Ok(text) => ExitCode::from(u8::from(print!(rt; "{text}").is_err())),
        Err(error) => {
            let _ = eprintln!(rt; "prog: {error}");
            ExitCode::FAILURE
        }
    }
}
