//! Opcodes and their operands.
ghost use Rattle.std.specs.Prelude.{◌≡◌, ◌≤◌, ◌<◌, ◌+◌, length, IfSome};
ghost use Rattle.blz_info.specs.Contents.{section_view};
ghost use Rattle.blz_line.specs.Opcodes.{ulebs_passed, extended_op, extended_at, standard_at, op_at};

use crate::paths::{FileEntry, file_at};
use crate::rules::Rules;
use blz_bytes::{sleb_at, u8_at, u16_at, uleb_at};
use blz_constants::dwarf;
use blz_entry::{Section, address_at, cut};

/// An opcode with its operands (DWARF 5 section 6.2.5).
#[derive(Clone, Copy)]
pub enum Op {
    /// A special opcode, by its distance from the first one.
    Special(u8),
    /// `DW_LNS_copy`
    Copy,
    /// `DW_LNS_advance_pc`
    AdvancePc(u64),
    /// `DW_LNS_advance_line`
    AdvanceLine(i64),
    /// `DW_LNS_set_file`
    SetFile(u64),
    /// `DW_LNS_set_column`
    SetColumn(u64),
    /// One that changes nothing that rows are made of.
    Nothing,
    /// `DW_LNS_const_add_pc`
    ConstAddPc,
    /// `DW_LNS_fixed_advance_pc`
    FixedAdvancePc(u16),
    /// `DW_LNE_end_sequence`
    EndSequence,
    /// `DW_LNE_set_address`
    SetAddress(u64),
    /// `DW_LNE_define_file`
    DefineFile(FileEntry),
}

fn ulebs_passed(count: u8, bytes: &[u8], at: usize) -> Option<usize>
    requires { at ≤ length bytes.now }
    ensures value { result ≡ ulebs_passed count bytes.now at }
    ensures within { IfSome result (λ n. (at ≤ n) × (n ≤ length bytes.now)) }
{
    let mut offset = at;
    for _ in 0..count {
        let (_, next) = uleb_at(bytes, offset)?;
        offset = next;
    }
    Some(offset)
}

#[tactic(auto, unfolding(crate::specs::Opcodes::extended_op))]
fn extended_op(rules: Rules, section: &Section<'_, '_>, code: u8, at: usize) -> Option<Op>
    ensures { result ≡ extended_op rules (section_view section.now) code at }
{
    match code {
        dwarf::DW_LNE_end_sequence => Some(Op::EndSequence),
        dwarf::DW_LNE_set_address => {
            let (address, _) = address_at(rules.address_size, section, at)?;
            Some(Op::SetAddress(address))
        }
        dwarf::DW_LNE_define_file if rules.version <= 4 => {
            let (file, _) = file_at(section.bytes, at)?;
            Some(Op::DefineFile(file))
        }
        _ => Some(Op::Nothing),
    }
}

#[tactic(auto, unfolding(crate::specs::Opcodes::extended_at))]
fn extended_at(rules: Rules, section: &Section<'_, '_>, at: usize) -> Option<(Op, usize)>
    ensures value { result ≡ extended_at rules (section_view section.now) at }
    ensures within { IfSome result (λ r. (at ≤ r.1) × (r.1 ≤ length section.now.bytes.now)) }
{
    let (len, start) = uleb_at(section.bytes, at)?;
    if len == 0 || ((section.bytes.len() - start) as u64) < len {
        return None;
    }
    let end = start + len as usize;
    let (code, operands) = u8_at(section.bytes, start)?;
    let op = extended_op(rules, &cut(section, end), code, operands)?;
    Some((op, end))
}

#[tactic(auto, unfolding(crate::specs::Opcodes::standard_at))]
fn standard_at(
    rules: Rules,
    counts: &[u8],
    section: &Section<'_, '_>,
    code: u8,
    at: usize,
) -> Option<(Op, usize)>
    requires within { at ≤ length section.now.bytes.now }
    requires counted { code ≤ length counts.now }
    ensures value { result ≡ standard_at rules counts.now (section_view section.now) code at }
    ensures within { IfSome result (λ r. (at ≤ r.1) × (r.1 ≤ length section.now.bytes.now)) }
{
    let bytes = section.bytes;
    match code {
        0 => extended_at(rules, section, at),
        dwarf::DW_LNS_copy => Some((Op::Copy, at)),
        dwarf::DW_LNS_advance_pc => {
            let (count, next) = uleb_at(bytes, at)?;
            Some((Op::AdvancePc(count), next))
        }
        dwarf::DW_LNS_advance_line => {
            let (by, next) = sleb_at(bytes, at)?;
            Some((Op::AdvanceLine(by), next))
        }
        dwarf::DW_LNS_set_file => {
            let (file, next) = uleb_at(bytes, at)?;
            Some((Op::SetFile(file), next))
        }
        dwarf::DW_LNS_set_column => {
            let (column, next) = uleb_at(bytes, at)?;
            Some((Op::SetColumn(column), next))
        }
        dwarf::DW_LNS_negate_stmt
        | dwarf::DW_LNS_set_basic_block
        | dwarf::DW_LNS_set_prologue_end
        | dwarf::DW_LNS_set_epilogue_begin => Some((Op::Nothing, at)),
        dwarf::DW_LNS_const_add_pc => Some((Op::ConstAddPc, at)),
        dwarf::DW_LNS_fixed_advance_pc => {
            let (by, next) = u16_at(bytes, at, section.order)?;
            Some((Op::FixedAdvancePc(by), next))
        }
        dwarf::DW_LNS_set_isa => {
            let (_, next) = uleb_at(bytes, at)?;
            Some((Op::Nothing, next))
        }
        _ => {
            let next = ulebs_passed(counts[code as usize - 1], bytes, at)?;
            Some((Op::Nothing, next))
        }
    }
}

/// The opcode at an offset, and the next offset; None where its bytes are not whole. `counts` has the number of
/// operands of each standard opcode.
#[tactic(auto, unfolding(crate::specs::Opcodes::op_at))]
pub fn op_at(
    rules: Rules,
    counts: &[u8],
    section: &Section<'_, '_>,
    at: usize,
) -> Option<(Op, usize)>
    requires { rules.opcode_base ≤ length counts.now + 1 }
    ensures value { result ≡ op_at rules counts.now (section_view section.now) at }
    ensures within { IfSome result (λ r. (at < r.1) × (r.1 ≤ length section.now.bytes.now)) }
{
    let (code, next) = u8_at(section.bytes, at)?;
    if code >= rules.opcode_base {
        return Some((Op::Special(code - rules.opcode_base), next));
    }
    standard_at(rules, counts, section, code, next)
}
