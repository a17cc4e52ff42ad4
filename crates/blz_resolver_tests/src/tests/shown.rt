//! Answers in the form in which tests compare them.
use super::built::Built;
use blz_bytes::{ByStdSort, Orders};
use blz_checks::Checks;
use blz_elf::{Answer, CodeInfo, FindSymOpts};
use blz_error::{ErrorKind, Result};
use blz_resolver::{Bundle, symbolize};
use blz_runs::{lone, refusal};
use std::alloc::{AllocError, Global};

/// The name of what was found, where something was.
pub fn name_of<'b>(answer: &Answer<'b>) -> Option<&'b str> {
    match answer {
        Answer::Sym(symbol) => Some(symbol.name),
        Answer::NoSym(_) => None,
    }
}

/// The names that are found at some addresses, in any orders.
pub fn names_by<'b, O: Orders>(
    alloc: Global,
    orders: &mut O,
    bundle: &Bundle<'b>,
    addrs: &[u64],
) -> Result<Vec<Option<&'b str>>> {
    let answers = symbolize(alloc, orders, bundle, addrs, &FindSymOpts::Basic)?;
    let mut names = Vec::new(alloc);
    for answer in &answers {
        names.push(name_of(answer))?;
    }
    Ok(names)
}

/// The names that are found at some addresses.
pub fn names<'b>(
    alloc: Global,
    bundle: &Bundle<'b>,
    addrs: &[u64],
) -> Result<Vec<Option<&'b str>>> {
    names_by(alloc, &mut ByStdSort, bundle, addrs)
}

/// Whether an address has this name.
pub fn is_named(alloc: Global, bundle: &Bundle<'_>, addr: u64, name: &str) -> Result<bool> {
    let found = names(alloc, bundle, &[addr])?;
    Ok(found.as_slice() == [Some(name)].as_slice())
}

fn compare_names(
    checks: &mut Checks,
    alloc: Global,
    image: &[u8],
    addrs: &[u64],
    wanted: &[Option<&str>],
) {
    match names(alloc, &lone(image), addrs) {
        Ok(found) => checks.same(found.as_slice(), wanted),
        Err(error) => checks.same(Some(error.kind()), None),
    }
}

/// Some addresses of an image alone are to have these names.
pub fn names_are(
    checks: &mut Checks,
    alloc: Global,
    image: Built,
    addrs: &[u64],
    wanted: &[Option<&str>],
) {
    match image {
        Ok(image) => compare_names(checks, alloc, &image, addrs, wanted),
        Err(_) => checks.holds(false),
    }
}

/// Why an image alone is refused for some addresses.
pub fn refusal_of(alloc: Global, image: Built, addrs: &[u64]) -> Option<ErrorKind> {
    match image {
        Ok(image) => refusal(names(alloc, &lone(&image), addrs)),
        Err(_) => Some(ErrorKind::OutOfMemory),
    }
}

/// A function of an answer, or a call that was inlined in it, with the line of its place where that is known.
#[derive(Clone, Copy, Debug, PartialEq, Eq)]
pub struct Frame<'b> {
    name: &'b str,
    line: Option<u32>,
}

impl<'b> Frame<'b> {
    /// At a line.
    pub fn at(name: &'b str, line: u32) -> Frame<'b> {
        Frame {
            name,
            line: Some(line),
        }
    }

    /// At no place that is known.
    pub fn nowhere(name: &'b str) -> Frame<'b> {
        Frame { name, line: None }
    }

    fn of(name: &'b str, place: &Option<CodeInfo<'b>>) -> Frame<'b> {
        match place {
            Some(place) => Frame {
                name,
                line: place.line,
            },
            None => Frame::nowhere(name),
        }
    }
}

fn frames_of<'b>(
    alloc: Global,
    answer: &Answer<'b>,
) -> std::result::Result<Vec<Frame<'b>>, AllocError> {
    let mut frames = Vec::new(alloc);
    let Answer::Sym(symbol) = answer else {
        return Ok(frames);
    };
    frames.push(Frame::of(symbol.name, &symbol.code_info))?;
    for call in symbol.inlined.as_slice() {
        frames.push(Frame::of(call.name, &call.code_info))?;
    }
    Ok(frames)
}

/// The function of an address and the calls inlined there, the outermost first; none where no function is found.
pub fn frames<'b>(alloc: Global, bundle: &Bundle<'b>, addr: u64) -> Result<Vec<Frame<'b>>> {
    let opts = FindSymOpts::CodeInfoAndInlined;
    let answers = symbolize(alloc, &mut ByStdSort, bundle, &[addr], &opts)?;
    match answers.first() {
        Some(answer) => Ok(frames_of(alloc, answer)?),
        None => Ok(Vec::new(alloc)),
    }
}

fn compare_frames(
    checks: &mut Checks,
    alloc: Global,
    image: &[u8],
    addr: u64,
    wanted: &[Frame<'_>],
) {
    match frames(alloc, &lone(image), addr) {
        Ok(found) => checks.same(found.as_slice(), wanted),
        Err(error) => checks.same(Some(error.kind()), None),
    }
}

/// An address of an image alone is to have these frames.
pub fn frames_are(
    checks: &mut Checks,
    alloc: Global,
    image: Built,
    addr: u64,
    wanted: &[Frame<'_>],
) {
    match image {
        Ok(image) => compare_frames(checks, alloc, &image, addr, wanted),
        Err(_) => checks.holds(false),
    }
}

/// Why the frames of an address of an image alone are refused.
pub fn frames_refusal(alloc: Global, image: Built, addr: u64) -> Option<ErrorKind> {
    match image {
        Ok(image) => refusal(frames(alloc, &lone(&image), addr)),
        Err(_) => Some(ErrorKind::OutOfMemory),
    }
}
