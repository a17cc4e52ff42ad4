//! Answers in the form in which tests compare them.
use blz_bytes::ByStdSort;
use blz_elf::{Answer, ElfParser, FindSymOpts, Reason};
use blz_error::{ErrorKind, Result};
use std::alloc::Global;

/// What an address has, in short, with its size.
pub fn found<'b>(alloc: Global, image: &'b [u8], addr: u64) -> Result<(&'b str, Option<u64>)> {
    let mut parser = ElfParser::from_mem(alloc, image, None);
    match parser.find_sym(alloc, &mut ByStdSort, addr, &FindSymOpts::Basic)? {
        Answer::Sym(symbol) => Ok((symbol.name, symbol.size)),
        Answer::NoSym(Reason::UnknownAddr) => Ok(("unknown address", None)),
        Answer::NoSym(Reason::MissingSyms) => Ok(("no symbols", None)),
    }
}

/// The kind of the refusal of address 0.
pub fn kind_of(alloc: Global, image: &[u8]) -> Option<ErrorKind> {
    match found(alloc, image, 0) {
        Ok(_) => None,
        Err(e) => Some(e.kind()),
    }
}
