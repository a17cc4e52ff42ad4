//! The usual opcodes, which are run without an opcode in between.
ghost use Rattle.std.specs.Prelude.{◌≡◌, ◌≤◌, ◌<◌, ◌+◌, ◌*◌, ◌/◌, length, IfOk, IfSome, Some, true, false};
ghost use Rattle.blz_line.specs.Program.{state_of};
ghost use Rattle.blz_line.specs.Registers.{special};
ghost use Rattle.blz_line.specs.Usual.{plain, row_by, set_by, GoesOn};

use crate::program::Given;
use crate::registers::{Registers, greatest, line_behind, line_plus};
use crate::rules::Rules;
use blz_bytes::{sleb_at, uleb_at};
use blz_constants::dwarf;
use std::alloc::AllocError;

/// The registers that the usual opcodes change.
#[derive(Clone, Copy)]
struct Changed {
    address: u64,
    file: u64,
    line: u64,
    column: u64,
}

/// How many bytes a special opcode goes on where an instruction is one operation.
#[inline(always)]
fn bytes_of(rules: Rules, code: u8) -> u64
    requires { 0 < rules.line_range }
    ensures { result ≡ rules.min_length * (code / rules.line_range) }
{
    u64::from(rules.min_length) * u64::from(code / rules.line_range)
}

impl Changed {
    fn of(registers: Registers) -> Changed
        requires op_index { registers.op_index ≡ 0 }
        requires skipping { registers.skipping ≡ false }
        ensures { plain result ≡ registers }
    {
        Changed {
            address: registers.address,
            file: registers.file,
            line: registers.line,
            column: registers.column,
        }
    }

    /// All registers, at the first operation of an instruction whose row is not skipped.
    #[inline(always)]
    fn registers(self) -> Registers
        ensures { result ≡ plain self }
    {
        Registers {
            address: self.address,
            op_index: 0,
            file: self.file,
            line: self.line,
            column: self.column,
            skipping: false,
        }
    }

    /// Behind a special opcode, by its distance from the first one; None where the address leaves its size.
    #[inline(always)]
    fn special(self, rules: Rules, code: u8) -> Option<Changed>
        requires ops { rules.max_ops ≡ 1 }
        requires range { 0 < rules.line_range }
        ensures { IfSome result (λ c. special rules (plain self) code ≡ Some (plain c)) }
    {
        let address = self.address.checked_add(bytes_of(rules, code))?;
        if address > greatest(rules) {
            return None;
        }
        let line = line_behind(self.line, rules, code);
        Some(Changed {
            address,
            line,
            ..self
        })
    }

    /// As the row that an opcode makes tells them, where it is one that makes one.
    #[inline(always)]
    #[tactic(auto, unfolding(crate::specs::Usual::row_by, crate::specs::Registers::moved_by))]
    fn row_by(self, rules: Rules, code: u8) -> Option<Changed>
        requires ops { rules.max_ops ≡ 1 }
        requires range { 0 < rules.line_range }
        ensures { IfSome result
            (λ c. row_by rules (plain self) code ≡ Some (plain c)) }
    {
        if code >= rules.opcode_base {
            return self.special(rules, code - rules.opcode_base);
        }
        if code == dwarf::DW_LNS_copy {
            return Some(self);
        }
        None
    }

    /// Behind a standard opcode that sets a file, a line, a column or a flag, and the place behind its operands.
    #[inline(always)]
    #[tactic(auto, unfolding(crate::specs::Usual::set_by))]
    fn set_by(self, code: u8, bytes: &[u8], at: usize) -> Option<(Changed, usize)>
        requires { at ≤ length bytes.now }
        ensures value { result ≡ set_by self code bytes.now at }
        ensures within { IfSome result (λ r. (at ≤ r.1) × (r.1 ≤ length bytes.now)) }
    {
        match code {
            dwarf::DW_LNS_set_column => {
                let (column, next) = uleb_at(bytes, at)?;
                Some((Changed { column, ..self }, next))
            }
            dwarf::DW_LNS_advance_line => {
                let (by, next) = sleb_at(bytes, at)?;
                let line = line_plus(self.line, by);
                Some((Changed { line, ..self }, next))
            }
            dwarf::DW_LNS_set_file => {
                let (file, next) = uleb_at(bytes, at)?;
                Some((Changed { file, ..self }, next))
            }
            dwarf::DW_LNS_negate_stmt => Some((self, at)),
            _ => None,
        }
    }
}

/// Runs the usual opcodes from a place on, and gives the place of the next other one, or of one that cannot be run. It is
/// a loop of its own, so that what it holds stays out of memory.
#[inline(never)]
pub(crate) fn run_usual(
    rules: Rules,
    bytes: &[u8],
    at: usize,
    registers: &mut Registers,
    given: &mut Given,
) -> Result<usize, AllocError>
    requires within { at ≤ length bytes.now }
    requires range { 0 < rules.line_range }
    ensures { IfOk result (λ next. GoesOn rules bytes.now
        (state_of registers.old given.old) at (state_of registers.new given.new) next) }
{
    // an instruction is more than one operation on machines that pack operations alone
    if rules.max_ops != 1 || registers.op_index != 0 || registers.skipping {
        return Ok(at);
    }
    let mut offset = at;
    let mut now = Changed::of(*registers);
    while offset < bytes.len() {
        let code = bytes[offset];
        if let Some(moved) = now.row_by(rules, code) {
            given.make_row(moved.registers())?;
            now = moved;
            offset += 1;
            continue;
        }
        if code >= rules.opcode_base {
            break;
        }
        let Some((set, next)) = now.set_by(code, bytes, offset + 1) else {
            break;
        };
        now = set;
        offset = next;
    }
    *registers = now.registers();
    Ok(offset)
}
