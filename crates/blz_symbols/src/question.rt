//! What is asked of a table of symbols.
ghost use Rattle.std.specs.Prelude.{◌≡◌};
ghost use Rattle.blz_symbols.specs.SymbolRule.{covers, may_answer};

use blz_constants::elf::SHN_UNDEF;
use blz_image::symbols::{Symbol, TableKind};
use blz_records::SymType;

/// An address, and the table that is asked.
#[derive(Clone, Copy)]
pub struct Question {
    /// The table.
    pub table: TableKind,
    /// The address.
    pub addr: u64,
    /// What the symbol is to name.
    pub sym_type: SymType,
}

impl Question {
    fn is_covered(&self, symbol: &Symbol) -> bool
        ensures { result ≡ covers self.now.table self.now.addr symbol.now }
    {
        if symbol.size == 0 {
            return match self.table {
                TableKind::Symtab => true,
                TableKind::Dynsym => symbol.value == self.addr,
            };
        }
        self.addr < symbol.value || self.addr - symbol.value < symbol.size
    }

    /// Whether a symbol is defined, covers the address, and is of the type that is asked for.
    pub fn may_be_answered(&self, symbol: &Symbol) -> bool
        ensures { result ≡ may_answer self.now symbol.now }
    {
        symbol.section != SHN_UNDEF && self.is_covered(symbol) && symbol.matches(self.sym_type)
    }
}
