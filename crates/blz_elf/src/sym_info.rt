//! A symbol that is looked up by its name, or listed.
ghost use Rattle.std.specs.Prelude.{◌≡◌, [], length, map, slice_get, IfOk};
ghost use Rattle.std.specs.Option.{option_map};
ghost use Rattle.blz_elf.specs.Infos.{info_view};
ghost use Rattle.blz_elf.specs.OwnedInfos.{owned_view};

use blz_error::Str;
use blz_records::SymType;
use std::alloc::{AllocError, Global};
use std::marker::Model;

/// A symbol or function, as a listing shows it.
#[derive(Clone, Copy, PartialEq, Eq, Hash)]
pub struct SymInfo<'b> {
    /// Its name.
    pub name: &'b str,
    /// Where it begins.
    pub addr: u64,
    /// Its size in bytes.
    pub size: Option<u64>,
    /// What it names.
    pub sym_type: SymType,
    /// Where it begins in the file.
    pub file_offset: Option<u64>,
    /// The name of the file that it was found in.
    pub module: Option<&'b str>,
}

impl<'b> SymInfo<'b> {
    /// A copy that owns its texts.
    pub fn to_owned(&self, alloc: Global) -> Result<SymInfoBuf, AllocError>
        ensures { IfOk result (λ owned. owned_view owned ≡ info_view self.now) }
    {
        let name = Str::owned(String::from_str(alloc, self.name)?);
        let module = match self.module {
            Some(module) => Some(Str::owned(String::from_str(alloc, module)?)),
            None => None,
        };
        Ok(SymInfoBuf {
            name,
            addr: self.addr,
            size: self.size,
            sym_type: self.sym_type,
            file_offset: self.file_offset,
            module,
        })
    }
}

/// The same, with texts of its own.
#[derive(Drop)]
pub struct SymInfoBuf {
    /// Its name.
    pub name: Str,
    /// Where it begins.
    pub addr: u64,
    /// Its size in bytes.
    pub size: Option<u64>,
    /// What it names.
    pub sym_type: SymType,
    /// Where it begins in the file.
    pub file_offset: Option<u64>,
    /// The name of the file that it was found in.
    pub module: Option<Str>,
}

impl SymInfoBuf {
    /// The info that borrows these texts.
    pub fn as_info(&self) -> SymInfo<'_>
        ensures { info_view result ≡ owned_view self.now }
    {
        SymInfo {
            name: self.name.as_str(),
            addr: self.addr,
            size: self.size,
            sym_type: self.sym_type,
            file_offset: self.file_offset,
            module: match &self.module {
                Some(module) => Some(module.as_str()),
                None => None,
            },
        }
    }
}

/// Infos, in the order of a listing.
#[derive(Drop)]
pub struct SymInfos<'b> {
    items: Vec<SymInfo<'b>>,
}

impl<'b> Model for SymInfos<'b> {
    ghost use Rattle.std.specs.Prelude.{List, map};
    ghost use Rattle.blz_elf.specs.Infos.{Info, info_view};

    ghost Value = { List Info };

    ghost view = { λ a. map info_view a.items.items };
}

impl<'b> SymInfos<'b> {
    /// No infos; takes no memory.
    pub fn empty(alloc: Global) -> SymInfos<'b>
        ensures { result ≡ [] }
    {
        SymInfos {
            items: Vec::new(alloc),
        }
    }

    /// The infos of a vector; takes no memory.
    pub fn from_vec(items: Vec<SymInfo<'b>>) -> SymInfos<'b>
        ensures { result ≡ map info_view items.entry.items }
    {
        SymInfos { items }
    }

    /// How many they are.
    pub fn len(&self) -> usize
        ensures { result ≡ length self.now }
    {
        self.items.len()
    }

    /// The info at an index, none from the length on.
    pub fn get(&self, idx: usize) -> Option<&SymInfo<'b>>
        ensures { option_map (λ f. info_view f.now) result ≡ slice_get self.now idx }
    {
        self.items.get(idx)
    }

    /// The infos as a slice.
    pub fn as_slice(&self) -> &[SymInfo<'b>]
        ensures { map info_view result.now ≡ self.now }
    {
        self.items.as_slice()
    }

    /// The vector of the infos; takes no memory.
    pub fn into_vec(self) -> Vec<SymInfo<'b>>
        ensures { map info_view result.items ≡ self.entry }
    {
        self.items
    }
}
