//! The printed text, made whole before any of it is written.
ghost use Rattle.std.specs.Prelude.{◌≡◌, ◌++◌, IfOk, OnOk, length, map};
ghost use Rattle.std.specs.Option.{option_map};
ghost use Rattle.blz_bytes.specs.Joined.{joined};
ghost use Rattle.blz_elf.specs.AnswerView.{answer_view};
ghost use Rattle.blz_elf.specs.CallViews.{inlined_view, site_view};
ghost use Rattle.blz_tool.specs.PrintedText.{shown_name, numbered, dir_bytes, place_text, call_text, calls_text, reason_text, answer_text, line_of, text_of};

use blz_bytes::DirPath;
use blz_elf::{Answer, CodeInfo, InlinedFn, Reason};
use blz_program::{push_decimal, push_hex, push_path};
use std::alloc::{AllocError, Global};

/// A line for each address, and one for each of its inlined calls.
pub fn text(alloc: Global, addrs: &[u64], answers: &[Answer<'_>]) -> Result<Vec<u8>, AllocError>
    requires { length answers.now ≡ length addrs.now }
    ensures { IfOk result (λ v. v.items ≡ text_of addrs.now (map answer_view answers.now)) }
{
    let mut out = Vec::new(alloc);
    for (i, addr) in addrs.iter().enumerate() {
        push_line(&mut out, *addr, &answers[i])?;
    }
    Ok(out)
}

fn push_line(out: &mut Vec<u8>, addr: u64, answer: &Answer<'_>) -> Result<(), AllocError>
    ensures { OnOk result
        (out.new.items ≡ out.old.items ++ line_of addr (answer_view answer.now)) }
{
    push_hex(out, addr)?;
    out.push(b' ')?;
    push_answer(out, answer)
}

fn push_answer(out: &mut Vec<u8>, answer: &Answer<'_>) -> Result<(), AllocError>
    ensures { OnOk result (out.new.items ≡ out.old.items ++ answer_text (answer_view answer.now)) }
{
    match answer {
        Answer::Sym(symbol) => {
            push_name(out, symbol.name)?;
            push_place(out, &symbol.code_info)?;
            out.push(b'\n')?;
            push_calls(out, symbol.inlined.as_slice())
        }
        Answer::NoSym(reason) => {
            out.extend_from_slice(reason_text(*reason).as_bytes())?;
            out.push(b'\n')?;
            Ok(())
        }
    }
}

fn reason_text(reason: Reason) -> &'static str
    ensures { result.now ≡ reason_text reason }
{
    match reason {
        Reason::MissingSyms => "?? (missing symbols)",
        Reason::UnknownAddr => "?? (unknown address)",
    }
}

fn push_name(out: &mut Vec<u8>, name: &str) -> Result<(), AllocError>
    ensures { OnOk result (out.new.items ≡ out.old.items ++ shown_name name.now) }
{
    if name.is_empty() {
        out.extend_from_slice(b"??")
    } else {
        out.extend_from_slice(name.as_bytes())
    }
}

fn push_calls(out: &mut Vec<u8>, calls: &[InlinedFn<'_>]) -> Result<(), AllocError>
    ensures { OnOk result
        (out.new.items ≡ out.old.items ++ calls_text (map inlined_view calls.now)) }
{
    for call in calls {
        push_call(out, call)?;
    }
    Ok(())
}

fn push_call(out: &mut Vec<u8>, call: &InlinedFn<'_>) -> Result<(), AllocError>
    ensures { OnOk result (out.new.items ≡ out.old.items ++ call_text (inlined_view call.now)) }
{
    out.extend_from_slice(b"    ")?;
    push_name(out, call.name)?;
    push_place(out, &call.code_info)?;
    out.push(b'\n')?;
    Ok(())
}

// Where it stands in a source, where that is known.
fn push_place(out: &mut Vec<u8>, place: &Option<CodeInfo<'_>>) -> Result<(), AllocError>
    ensures { OnOk result
        (out.new.items ≡ out.old.items ++ place_text (option_map site_view place.now)) }
{
    match place {
        Some(info) => {
            out.extend_from_slice(b" at ")?;
            push_file(out, &info.dir, info.file)?;
            push_number(out, info.line)?;
            push_number(out, info.column.map(u32::from))
        }
        None => Ok(()),
    }
}

// The path of a file, in a directory where there is one.
fn push_file(out: &mut Vec<u8>, dir: &Option<DirPath<'_>>, file: &[u8]) -> Result<(), AllocError>
    ensures { OnOk result (out.new.items ≡ out.old.items ++ joined (dir_bytes dir.now) file.now) }
{
    match dir {
        Some(dir) => push_path(out, dir, file),
        None => out.extend_from_slice(file),
    }
}

// A colon and a number, where there is one.
fn push_number(out: &mut Vec<u8>, number: Option<u32>) -> Result<(), AllocError>
    ensures { OnOk result (out.new.items ≡ out.old.items ++ numbered number) }
{
    match number {
        Some(number) => {
            out.push(b':')?;
            push_decimal(out, u64::from(number))
        }
        None => Ok(()),
    }
}
