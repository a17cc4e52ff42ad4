//! The image of the demo: ELF64 with one unit of debug information (DWARF 4).
ghost use Rattle.std.specs.Prelude.{◌≡◌, ◌<◌, ◌≤◌, ◌+◌, ◌^◌, ◌++◌, IfOk, OnOk, length};
ghost use Rattle.blz_tool.specs.DemoImage.{demo, file_header, file_of, function_entries, function_entry, line_program, line_start, line_steps, section_header, section_headers, unit, unit_start, with_length};

use crate::fields::Field::{U16, U32, U64};
use crate::fields::push_fields;
use blz_program::push_decimal;
use std::alloc::{AllocError, Global};

/// The first address of the demo's unit.
pub const FIRST_ADDRESS: u64 = 0x1000;

const SECTION_NAMES: &[u8] = b"\0.shstrtab\0.debug_abbrev\0.debug_info\0.debug_line\0";

// A unit with its name, directory, low address, size and line program, and a subprogram with its name, low address and
// size (DWARF 4 section 7.5.3).
const ABBREVIATIONS: &[u8] = &[
    0x01, 0x11, 0x01, 0x03, 0x08, 0x1b, 0x08, 0x11, 0x01, 0x12, 0x07, 0x10, 0x17, 0x00, 0x00, 0x02,
    0x2e, 0x00, 0x03, 0x08, 0x11, 0x01, 0x12, 0x06, 0x00, 0x00, 0x00,
];

const HEADERS_LEN: u64 = 384;

/// The image of the demo with `n` functions, each of 8 bytes in a room of 16, and a line for each. Condition: `n` from 1
/// to 100000.
#[tactic(auto, unfolding(crate::specs::DemoImage::demo))]
pub fn demo_image(alloc: Global, n: u32) -> Result<Vec<u8>, AllocError>
    requires some { 1 ≤ n }
    requires few { n ≤ 100000 }
    ensures { IfOk result (λ v. v.items ≡ demo n) }
{
    let info = with_length(alloc, &unit(alloc, n)?)?;
    let line = with_length(alloc, &line_program(alloc, n)?)?;
    file_of(alloc, &info, &line)
}

fn with_length(alloc: Global, part: &[u8]) -> Result<Vec<u8>, AllocError>
    requires { length part.now < 2 ^ 32 }
    ensures value { IfOk result (λ v. v.items ≡ with_length part.now) }
    ensures short { IfOk result (λ v. length v.items < 2 ^ 33) }
{
    let mut out = Vec::new(alloc);
    push_fields(&mut out, &[U32(part.len() as u32)])?;
    out.extend_from_slice(part)?;
    Ok(out)
}

fn unit(alloc: Global, n: u32) -> Result<Vec<u8>, AllocError>
    requires { n ≤ 100000 }
    ensures value { IfOk result (λ v. v.items ≡ unit n) }
    ensures short { IfOk result (λ v. length v.items < 2 ^ 32) }
{
    let mut out = Vec::new(alloc);
    push_unit_start(&mut out, n)?;
    push_functions(&mut out, n)?;
    out.push(0)?;
    Ok(out)
}

fn push_unit_start(out: &mut Vec<u8>, n: u32) -> Result<(), AllocError>
    ensures { OnOk result (out.new.items ≡ out.old.items ++ unit_start n) }
{
    push_fields(out, &[U16(4), U32(0)])?;
    out.extend_from_slice(b"\x08\x01demo.c\0/demo\0")?;
    push_fields(out, &[U64(FIRST_ADDRESS), U64(16 * u64::from(n)), U32(0)])
}

fn push_functions(out: &mut Vec<u8>, n: u32) -> Result<(), AllocError>
    ensures { OnOk result (out.new.items ≡ out.old.items ++ function_entries n) }
{
    for i in 0..n {
        push_function(out, i)?;
    }
    Ok(())
}

fn push_function(out: &mut Vec<u8>, i: u32) -> Result<(), AllocError>
    ensures { OnOk result (out.new.items ≡ out.old.items ++ function_entry i) }
{
    out.extend_from_slice(b"\x02f")?;
    push_decimal(out, u64::from(i))?;
    out.push(0)?;
    push_fields(out, &[U64(FIRST_ADDRESS + 16 * u64::from(i)), U32(8)])
}

fn line_program(alloc: Global, n: u32) -> Result<Vec<u8>, AllocError>
    requires some { 1 ≤ n }
    requires few { n ≤ 100000 }
    ensures value { IfOk result (λ v. v.items ≡ line_program n) }
    ensures short { IfOk result (λ v. length v.items < 2 ^ 32) }
{
    let mut out = Vec::new(alloc);
    push_line_start(&mut out)?;
    push_line_steps(&mut out, n - 1)?;
    out.extend_from_slice(&[0x02, 0x10, 0x00, 0x01, 0x01])?;
    Ok(out)
}

fn push_line_start(out: &mut Vec<u8>) -> Result<(), AllocError>
    ensures { OnOk result (out.new.items ≡ out.old.items ++ line_start) }
{
    push_fields(out, &[U16(4), U32(30)])?;
    out.extend_from_slice(&[
        0x01, 0x01, 0x01, 0xfb, 0x0e, 0x0d, 0, 0x01, 0x01, 0x01, 0x01, 0, 0, 0, 0x01, 0, 0, 0x01, 0,
    ])?;
    out.extend_from_slice(b"demo.c\0\0\0\0\0")?;
    out.extend_from_slice(&[0, 0x09, 0x02])?;
    push_fields(out, &[U64(FIRST_ADDRESS)])?;
    out.push(0x01)?;
    Ok(())
}

fn push_line_steps(out: &mut Vec<u8>, count: u32) -> Result<(), AllocError>
    ensures { OnOk result (out.new.items ≡ out.old.items ++ line_steps count) }
{
    for _ in 0..count {
        out.extend_from_slice(&[0x02, 0x10, 0x03, 0x01, 0x01])?;
    }
    Ok(())
}

fn file_of(alloc: Global, info: &[u8], line: &[u8]) -> Result<Vec<u8>, AllocError>
    requires { length info.now < 2 ^ 33 }
    ensures { IfOk result (λ v. v.items ≡ file_of info.now line.now) }
{
    let mut out = Vec::new(alloc);
    push_file_header(&mut out)?;
    push_section_headers(&mut out, info.len() as u64, line.len() as u64)?;
    out.extend_from_slice(SECTION_NAMES)?;
    out.extend_from_slice(ABBREVIATIONS)?;
    out.extend_from_slice(info)?;
    out.extend_from_slice(line)?;
    Ok(out)
}

// ELF64, least byte first, an executable for x86-64 with five sections, of which the first has the names.
fn push_file_header(out: &mut Vec<u8>) -> Result<(), AllocError>
    ensures { OnOk result (out.new.items ≡ out.old.items ++ file_header) }
{
    out.extend_from_slice(b"\x7fELF\x02\x01\x01")?;
    out.extend_from_slice(&[0; 9])?;
    push_fields(
        out,
        &[
            U16(2),
            U16(62),
            U32(1),
            U64(0),
            U64(0),
            U64(64),
            U32(0),
            U16(64),
            U16(0),
            U16(0),
            U16(64),
            U16(5),
            U16(1),
        ],
    )
}

// The first is all 0; the sections stand after the headers, one after the other without gaps.
fn push_section_headers(out: &mut Vec<u8>, info_len: u64, line_len: u64) -> Result<(), AllocError>
    requires { info_len < 2 ^ 33 }
    ensures { OnOk result (out.new.items ≡ out.old.items ++ section_headers info_len line_len) }
{
    let names_len = SECTION_NAMES.len() as u64;
    let abbreviations_len = ABBREVIATIONS.len() as u64;
    let abbreviations_at = HEADERS_LEN + names_len;
    let info_at = abbreviations_at + abbreviations_len;
    out.extend_from_slice(&[0; 64])?;
    push_section_header(out, 1, 3, HEADERS_LEN, names_len)?;
    push_section_header(out, 11, 1, abbreviations_at, abbreviations_len)?;
    push_section_header(out, 25, 1, info_at, info_len)?;
    push_section_header(out, 37, 1, info_at + info_len, line_len)
}

fn push_section_header(
    out: &mut Vec<u8>,
    name: u32,
    kind: u32,
    offset: u64,
    size: u64,
) -> Result<(), AllocError>
    ensures { OnOk result (out.new.items ≡ out.old.items ++ section_header name kind offset size) }
{
    push_fields(
        out,
        &[
            U32(name),
            U32(kind),
            U64(0),
            U64(0),
            U64(offset),
            U64(size),
            U32(0),
            U32(0),
            U64(1),
            U64(0),
        ],
    )
}
