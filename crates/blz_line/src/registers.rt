//! The registers of the machine.
ghost use Rattle.std.specs.Prelude.{◌≡◌, ◌<◌, ◌/◌, ◌%◌, pos, ◌+ℤ◌};
ghost use Rattle.blz_line.specs.Registers.{first_registers, greatest, advanced, moved_on, set_address, line_plus, special, moved_by};

use crate::opcode::Op;
use crate::rules::Rules;

/// The registers that rows are made of (DWARF 5 section 6.2.2).
#[derive(Clone, Copy)]
pub struct Registers {
    pub address: u64,
    pub op_index: u64,
    pub file: u64,
    pub line: u64,
    pub column: u64,
    // no row is made until an address is set
    pub skipping: bool,
}

pub(crate) fn greatest(rules: Rules) -> u64
    ensures { result ≡ greatest rules }
{
    if rules.address_size == 4 {
        u64::from(u32::MAX)
    } else {
        u64::MAX
    }
}

/// Whole instructions of so many operations, and the operations that are left.
fn instructions(total: u128, max_ops: u8) -> (u128, u64)
    requires { 0 < max_ops }
    ensures whole { result.0 ≡ total / max_ops }
    ensures rest { result.1 ≡ total % max_ops }
{
    // the only case but on machines that pack operations
    if max_ops == 1 {
        return (total, 0);
    }
    let max_ops = u128::from(max_ops);
    (total / max_ops, (total % max_ops) as u64)
}

pub(crate) fn line_plus(line: u64, by: i64) -> u64
    ensures { result ≡ line_plus line by }
{
    if by < 0 {
        line.saturating_sub(by.unsigned_abs())
    } else {
        line.wrapping_add(by as u64)
    }
}

/// The line behind a special opcode.
#[inline(always)]
pub(crate) fn line_behind(line: u64, rules: Rules, code: u8) -> u64
    requires { 0 < rules.line_range }
    ensures { result ≡ line_plus line (rules.line_base +ℤ pos (code % rules.line_range)) }
{
    let by = i64::from(rules.line_base) + i64::from(code % rules.line_range);
    line_plus(line, by)
}

impl Registers {
    /// As they stand before each sequence.
    pub fn first() -> Registers
        ensures { result ≡ first_registers }
    {
        Registers {
            address: 0,
            op_index: 0,
            file: 1,
            line: 1,
            column: 0,
            skipping: false,
        }
    }

    #[tactic(auto, unfolding(crate::specs::Registers::advanced))]
    fn advanced(self, rules: Rules, count: u64) -> Option<Registers>
        requires { 0 < rules.max_ops }
        ensures { result ≡ advanced rules self count }
    {
        if self.skipping {
            return Some(self);
        }
        let (whole, op_index) = instructions(
            u128::from(self.op_index) + u128::from(count),
            rules.max_ops,
        );
        let address = u128::from(self.address) + u128::from(rules.min_length) * whole;
        if address > u128::from(greatest(rules)) {
            return None;
        }
        Some(Registers {
            address: address as u64,
            op_index,
            ..self
        })
    }

    #[tactic(auto, unfolding(crate::specs::Registers::moved_on))]
    fn moved_on(self, rules: Rules, by: u16) -> Option<Registers>
        ensures { result ≡ moved_on rules self by }
    {
        if self.skipping {
            return Some(self);
        }
        let address = self.address.checked_add(u64::from(by))?;
        if address > greatest(rules) {
            return None;
        }
        Some(Registers {
            address,
            op_index: 0,
            ..self
        })
    }

    #[tactic(auto, unfolding(crate::specs::Registers::set_address))]
    fn with_address(self, rules: Rules, address: u64) -> Option<Registers>
        ensures { result ≡ set_address rules self address }
    {
        let greatest = greatest(rules);
        if address == greatest || address < self.address {
            return Some(Registers {
                skipping: true,
                ..self
            });
        }
        if address > greatest {
            return None;
        }
        Some(Registers {
            address,
            op_index: 0,
            skipping: false,
            ..self
        })
    }

    #[tactic(auto, unfolding(crate::specs::Registers::special))]
    fn special(self, rules: Rules, code: u8) -> Option<Registers>
        requires ops { 0 < rules.max_ops }
        requires range { 0 < rules.line_range }
        ensures value { result ≡ special rules self code }
    {
        let after = self.advanced(rules, u64::from(code / rules.line_range))?;
        Some(Registers {
            line: line_behind(after.line, rules, code),
            ..after
        })
    }

    /// The registers after an opcode; None where the address leaves its size.
    #[tactic(auto, unfolding(crate::specs::Registers::moved_by))]
    pub fn moved_by(self, rules: Rules, op: Op) -> Option<Registers>
        requires ops { 0 < rules.max_ops }
        requires range { 0 < rules.line_range }
        ensures value { result ≡ moved_by rules self op }
    {
        match op {
            Op::Special(code) => self.special(rules, code),
            Op::AdvancePc(count) => self.advanced(rules, count),
            Op::AdvanceLine(by) => Some(Registers {
                line: line_plus(self.line, by),
                ..self
            }),
            Op::SetFile(file) => Some(Registers { file, ..self }),
            Op::SetColumn(column) => Some(Registers { column, ..self }),
            Op::ConstAddPc => self.advanced(
                rules,
                u64::from((255 - rules.opcode_base) / rules.line_range),
            ),
            Op::FixedAdvancePc(by) => self.moved_on(rules, by),
            Op::SetAddress(address) => self.with_address(rules, address),
            Op::Copy | Op::Nothing | Op::EndSequence | Op::DefineFile(_) => Some(self),
        }
    }
}
