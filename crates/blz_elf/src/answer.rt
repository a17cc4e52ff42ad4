//! What is answered for an address.
ghost use Rattle.std.specs.Prelude.{◌≡◌, length, map, [], slice_get};
ghost use Rattle.std.specs.Option.{option_map};
ghost use Rattle.blz_elf.specs.CallViews.{inlined_view};

use blz_bytes::DirPath;
use blz_model::{Reason, SrcLang};
use std::alloc::Global;
use std::marker::Model;

/// A place in a source.
#[derive(Drop)]
pub struct CodeInfo<'b> {
    /// The directory of the file.
    pub dir: Option<DirPath<'b>>,
    /// The file.
    pub file: &'b [u8],
    /// The line, counted from 1; 0 where none is known.
    pub line: Option<u32>,
    /// The column, counted from 1; 0 where none is known.
    pub column: Option<u16>,
}

/// A function whose call was inlined.
#[derive(Drop)]
pub struct InlinedFn<'b> {
    /// Its name, empty where it has none.
    pub name: &'b str,
    /// A place in its source.
    pub code_info: Option<CodeInfo<'b>>,
}

/// Inlined functions, the outermost first.
#[derive(Drop)]
pub struct InlinedFns<'b> {
    items: Vec<InlinedFn<'b>>,
}

impl<'b> Model for InlinedFns<'b> {
    ghost use Rattle.std.specs.Prelude.{List, map};
    ghost use Rattle.blz_model.specs.Answers as model;
    ghost use Rattle.blz_elf.specs.CallViews.{inlined_view};

    ghost Value = { List model.Inlined };

    ghost view = { λ a. map inlined_view a.items.items };
}

impl<'b> InlinedFns<'b> {
    /// No functions; takes no memory.
    pub fn empty(alloc: Global) -> InlinedFns<'b>
        ensures { result ≡ [] }
    {
        InlinedFns {
            items: Vec::new(alloc),
        }
    }

    /// The functions of a vector; takes no memory.
    pub fn from_vec(items: Vec<InlinedFn<'b>>) -> InlinedFns<'b>
        ensures { result ≡ map inlined_view items.entry.items }
    {
        InlinedFns { items }
    }

    /// How many they are.
    pub fn len(&self) -> usize
        ensures { result ≡ length self.now }
    {
        self.items.len()
    }

    /// The function at an index, none from the length on.
    pub fn get(&self, idx: usize) -> Option<&InlinedFn<'b>>
        ensures { option_map (λ f. inlined_view f.now) result ≡ slice_get self.now idx }
    {
        self.items.get(idx)
    }

    /// The functions as a slice.
    pub fn as_slice(&self) -> &[InlinedFn<'b>]
        ensures { map inlined_view result.now ≡ self.now }
    {
        self.items.as_slice()
    }

    /// The vector of the functions; takes no memory.
    pub fn into_vec(self) -> Vec<InlinedFn<'b>>
        ensures { map inlined_view result.items ≡ self.entry }
    {
        self.items
    }
}

/// A symbol or function, and where the address stands in a source.
#[derive(Drop)]
pub struct ResolvedSym<'b> {
    /// Its name.
    pub name: &'b str,
    /// The name of the file that it was found in.
    pub module: Option<&'b str>,
    /// Where it begins.
    pub addr: u64,
    /// Its size in bytes, where one is known.
    pub size: Option<u64>,
    /// Its language.
    pub lang: SrcLang,
    /// The place of the address in a source.
    pub code_info: Option<CodeInfo<'b>>,
    /// The inlined functions that hold the address, the outermost first.
    pub inlined: InlinedFns<'b>,
}

/// What an address has.
#[derive(Drop)]
pub enum Answer<'b> {
    /// A symbol or function.
    Sym(ResolvedSym<'b>),
    /// None, and why.
    NoSym(Reason),
}
