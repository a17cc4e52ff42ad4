//! What a symbol names (ELF gABI, Symbol Table).
ghost use Rattle.std.specs.Prelude.{◌≡◌};

use crate::{Elf64_Sym, ElfN_Sym};
use blz_constants::elf::{STT_FUNC, STT_GNU_IFUNC, STT_NOTYPE, STT_OBJECT};

/// What a symbol names, or what is asked for.
#[derive(Clone, Copy, PartialEq, Eq, Hash, Default)]
pub enum SymType {
    /// Anything: the type is not known, or not asked for.
    #[default]
    Undefined,
    /// A function.
    Function,
    /// A variable.
    Variable,
}

impl SymType {
    ghost use Rattle.blz_records.specs.SymbolTypes.{matches, sym_type_of};

    // whether a symbol of this code is asked for
    pub(crate) fn takes(self, code: u8) -> bool
        ensures { result ≡ matches code self }
    {
        match self {
            SymType::Undefined => matches!(
                code,
                STT_NOTYPE | STT_OBJECT | STT_FUNC | STT_GNU_IFUNC
            ),
            SymType::Function => matches!(code, STT_NOTYPE | STT_FUNC | STT_GNU_IFUNC),
            SymType::Variable => matches!(code, STT_NOTYPE | STT_OBJECT),
        }
    }

    fn of_code(code: u8) -> Option<SymType>
        ensures { result ≡ sym_type_of code }
    {
        match code {
            STT_NOTYPE => Some(SymType::Undefined),
            STT_OBJECT => Some(SymType::Variable),
            STT_FUNC | STT_GNU_IFUNC => Some(SymType::Function),
            _ => None,
        }
    }
}

impl TryFrom<&Elf64_Sym> for SymType {
    type Error = ();

    ghost use Rattle.std.specs.Prelude.{◌≡◌};
    ghost use Rattle.blz_records.specs.SymbolTypes.{as_option, code_of, sym_type_of};

    ghost try_from_gives = { λ symbol result. as_option result ≡ sym_type_of (code_of symbol.now.st_info) };

    fn try_from(symbol: &Elf64_Sym) -> Result<SymType, ()> {
        SymType::of_code(symbol.type_()).ok_or(())
    }
}

impl TryFrom<&ElfN_Sym> for SymType {
    type Error = ();

    ghost use Rattle.std.specs.Prelude.{◌≡◌};
    ghost use Rattle.blz_records.specs.Classes.{by_class};
    ghost use Rattle.blz_records.specs.SymbolTypes.{as_option, code_of, sym_type_of};

    ghost try_from_gives = { λ symbol result. as_option result ≡ sym_type_of (by_class (λ r. code_of r.st_info) (λ r. code_of r.st_info) symbol.now) };

    fn try_from(symbol: &ElfN_Sym) -> Result<SymType, ()> {
        SymType::of_code(symbol.type_()).ok_or(())
    }
}
