//! What is asked besides a symbol.
ghost use Rattle.std.specs.Prelude.{◌≡◌};
ghost use Rattle.blz_elf.specs.Asked.{asks_code_info, asks_inlined_fns};

/// What an answer is to hold besides the symbol.
#[derive(Clone, Copy, Debug, PartialEq, Eq)]
pub enum FindSymOpts {
    /// Nothing.
    Basic,
    /// The place of the address in a source.
    CodeInfo,
    /// That place, and the inlined functions that hold the address.
    CodeInfoAndInlined,
}

impl FindSymOpts {
    /// Whether the place in a source is asked.
    pub fn code_info(&self) -> bool
        ensures { result ≡ asks_code_info self.now }
    {
        match self {
            FindSymOpts::Basic => false,
            FindSymOpts::CodeInfo | FindSymOpts::CodeInfoAndInlined => true,
        }
    }

    /// Whether the inlined functions are asked.
    pub fn inlined_fns(&self) -> bool
        ensures { result ≡ asks_inlined_fns self.now }
    {
        match self {
            FindSymOpts::Basic | FindSymOpts::CodeInfo => false,
            FindSymOpts::CodeInfoAndInlined => true,
        }
    }
}
