//! The language of a function.
ghost use Rattle.std.specs.Prelude.{◌≡◌};

use blz_constants::dwarf;

/// A source language, as far as a demangler has to know it.
#[derive(Clone, Copy, Debug, PartialEq, Eq)]
pub enum SrcLang {
    /// Any other language, or none that is known.
    Unknown,
    /// C++, of any version.
    Cpp,
    /// Rust.
    Rust,
}

impl SrcLang {
    ghost use Rattle.blz_model.specs.Languages.{language_of};

    /// The language of a `DW_AT_language` code (DWARF 5 section 7.12).
    pub fn from_code(code: Option<u64>) -> SrcLang
        ensures { result ≡ language_of code }
    {
        match code {
            Some(dwarf::DW_LANG_Rust) => SrcLang::Rust,
            Some(
                dwarf::DW_LANG_C_plus_plus
                | dwarf::DW_LANG_C_plus_plus_03
                | dwarf::DW_LANG_C_plus_plus_11
                | dwarf::DW_LANG_C_plus_plus_14
                | dwarf::DW_LANG_C_plus_plus_17
                | dwarf::DW_LANG_C_plus_plus_20,
            ) => SrcLang::Cpp,
            _ => SrcLang::Unknown,
        }
    }
}
