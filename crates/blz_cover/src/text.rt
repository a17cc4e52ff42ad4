//! The printed counts.
ghost use Rattle.std.specs.Prelude.{◌≡◌, ◌++◌, IfOk, OnOk, slice_get};
ghost use Rattle.blz_cover.specs.CoverText.{cover_text, line_text, line_text_if, lines_text};
ghost use Rattle.blz_cover.specs.Covers.{covered};
ghost use Rattle.blz_cover.specs.LineViews.{line_view};

use crate::cover::Cover;
use crate::cover_line::CoverLine;
use blz_program::{push_decimal, push_path};
use std::alloc::{AllocError, Global};

/// A line for each source line, then the rest, then the total.
#[tactic(auto, unfolding(crate::specs::CoverText::cover_text))]
pub fn text(alloc: Global, cover: &Cover<'_, '_>) -> Result<Vec<u8>, AllocError>
    ensures { IfOk result (λ v. v.items ≡ cover_text cover.now.images cover.now.changes) }
{
    let mut out = Vec::new(alloc);
    push_lines(&mut out, cover)?;
    out.extend_from_slice(b"rest ")?;
    push_decimal(&mut out, cover.rest())?;
    out.extend_from_slice(b"\ntotal ")?;
    push_decimal(&mut out, cover.total())?;
    out.push(b'\n')?;
    Ok(out)
}

fn push_lines(out: &mut Vec<u8>, cover: &Cover<'_, '_>) -> Result<(), AllocError>
    ensures { OnOk result (out.new.items ≡ out.old.items ++ lines_text (covered cover.now.images cover.now.changes)) }
{
    for i in 0..cover.lines() {
        push_line_at(out, cover, i)?;
    }
    Ok(())
}

// The line of an index; nothing where there is none.
fn push_line_at(out: &mut Vec<u8>, cover: &Cover<'_, '_>, index: usize) -> Result<(), AllocError>
    ensures { OnOk result (out.new.items ≡ out.old.items ++ line_text_if (slice_get (covered cover.now.images cover.now.changes) index)) }
{
    match cover.line_at(index) {
        Some(line) => push_line(out, &line),
        None => Ok(()),
    }
}

fn push_line(out: &mut Vec<u8>, line: &CoverLine<'_>) -> Result<(), AllocError>
    ensures { OnOk result (out.new.items ≡ out.old.items ++ line_text (line_view line.now)) }
{
    push_path(out, &line.dir, line.file)?;
    out.push(b':')?;
    push_decimal(out, u64::from(line.line))?;
    out.push(b' ')?;
    push_decimal(out, line.count)?;
    out.push(b'\n')?;
    Ok(())
}
