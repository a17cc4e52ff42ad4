//! Symbols and functions as they are printed.
ghost use Rattle.std.specs.Prelude.{◌≡◌, ◌++◌, OnOk, codes, map};
ghost use Rattle.blz_elf.specs.Infos.{info_view};
ghost use Rattle.blz_program.specs.PrintedText.{line_feed};
ghost use Rattle.blz_listings.specs.FindTexts.{info_text, name_text, offset_if, size_text};

use blz_elf::SymInfo;
use blz_program::{push_decimal, push_hex};
use std::alloc::AllocError;

/// Appends what a name has, or that nothing has it.
pub fn push_name(
    out: &mut Vec<u8>,
    name: &str,
    infos: &[SymInfo<'_>],
    asked: bool,
) -> Result<(), AllocError>
    ensures { OnOk result (out.new.items
        ≡ out.old.items ++ name_text asked name.now (map info_view infos.now)) }
{
    if infos.is_empty() {
        return push_missing(out, name);
    }
    for info in infos {
        push_info(out, info, asked)?;
    }
    Ok(())
}

fn push_missing(out: &mut Vec<u8>, name: &str) -> Result<(), AllocError>
    ensures { OnOk result
        (out.new.items ≡ out.old.items ++ (codes "?? " ++ name.now ++ line_feed)) }
{
    out.extend_from_slice(b"?? ")?;
    out.extend_from_slice(name.as_bytes())?;
    out.push(b'\n')?;
    Ok(())
}

/// Appends a symbol or function on a line of its own; its place in the file where it is asked.
pub fn push_info(out: &mut Vec<u8>, info: &SymInfo<'_>, asked: bool) -> Result<(), AllocError>
    ensures { OnOk result (out.new.items ≡ out.old.items ++ info_text asked (info_view info.now)) }
{
    push_hex(out, info.addr)?;
    out.push(b' ')?;
    push_size(out, info.size)?;
    push_offset_if(out, info.file_offset, asked)?;
    out.push(b' ')?;
    out.extend_from_slice(info.name.as_bytes())?;
    out.push(b'\n')?;
    Ok(())
}

fn push_size(out: &mut Vec<u8>, size: Option<u64>) -> Result<(), AllocError>
    ensures { OnOk result (out.new.items ≡ out.old.items ++ size_text size) }
{
    match size {
        Some(size) => push_decimal(out, size),
        None => push_mark(out),
    }
}

fn push_offset_if(out: &mut Vec<u8>, offset: Option<u64>, asked: bool) -> Result<(), AllocError>
    ensures { OnOk result (out.new.items ≡ out.old.items ++ offset_if asked offset) }
{
    if !asked {
        return Ok(());
    }
    out.push(b' ')?;
    match offset {
        Some(offset) => push_hex(out, offset),
        None => push_mark(out),
    }
}

// What stands in the place of a number that is not there.
fn push_mark(out: &mut Vec<u8>) -> Result<(), AllocError>
    ensures { OnOk result (out.new.items ≡ out.old.items ++ codes "?") }
{
    out.push(b'?')?;
    Ok(())
}
