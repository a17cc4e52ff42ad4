//! A caller of the library: answers addresses of a file by their functions, source lines and inlined calls.
#![tactic(auto)]

use blz_bytes::ByStdSort;
use blz_elf::{Answer, CodeInfo, FindSymOpts};
use blz_error::Result;
use blz_resolver::outside::RealFiles;
use blz_resolver::{ElfResolver, symbolize};
use std::fmt::Write;
use std::process::ExitCode;
use std::rt::Files;

fn push_place(text: &mut String, place: &Option<CodeInfo<'_>>) -> Result<()> {
    match place {
        Some(place) => writeln!(text, " at line {}", place.line.unwrap_or(0))?,
        None => text.push('\n')?,
    }
    Ok(())
}

// Appends what an address has: its function and line, and the calls that are inlined there, the outermost first.
fn push_answer(text: &mut String, address: u64, answer: &Answer<'_>) -> Result<()> {
    match answer {
        Answer::NoSym(_) => writeln!(text, "{address:x} is unknown")?,
        Answer::Sym(found) => {
            write!(text, "{address:x} {}", found.name)?;
            push_place(text, &found.code_info)?;
            for call in found.inlined.as_slice() {
                write!(text, "    {}", call.name)?;
                push_place(text, &call.code_info)?;
            }
        }
    }
    Ok(())
}

// The answers for some addresses as text. An error is the kind of the first part of the files that is broken.
fn report(rt: &(impl Files + AllocGlobal), path: &str, addresses: &[u64]) -> Result<String> {
    let alloc = rt.alloc();
    let owned = ElfResolver::open(alloc, &mut RealFiles::new(rt), path)?;
    let options = FindSymOpts::CodeInfoAndInlined;
    let answers = symbolize(alloc, &mut ByStdSort, &owned.bundle(), addresses, &options)?;
    let mut text = String::new(alloc);
    for at in 0..answers.len() {
        // in range: `symbolize` ensures one answer for each address
        push_answer(&mut text, addresses[at], &answers[at])?;
    }
    Ok(text)
}

fn main(rt: HostRuntime) -> ExitCode {
    match report(&rt, "prog", &[0x1140, 0x1150, 0x1200, 0x1110, 0x9000]) {
        Ok(text) => ExitCode::from(u8::from(print!(rt; "{text}").is_err())),
        Err(error) => {
            let _ = eprintln!(rt; "prog: {error}");
            ExitCode::FAILURE
        }
    }
}
