//! What was found of names.
ghost use Rattle.std.specs.Prelude.{◌≡◌, length, map, slice_get};
ghost use Rattle.std.specs.Option.{option_map};
ghost use Rattle.blz_elf.specs.OwnedInfos.{owned_view};

use blz_elf::SymInfoBuf;
use std::marker::Model;

/// The infos of one name, with texts of their own.
#[derive(Drop)]
pub struct FoundInfos {
    infos: Vec<SymInfoBuf>,
}

impl Model for FoundInfos {
    ghost use Rattle.std.specs.Prelude.{List, map};
    ghost use Rattle.blz_elf.specs.Infos.{Info};
    ghost use Rattle.blz_elf.specs.OwnedInfos.{owned_view};

    ghost Value = { List Info };

    ghost view = { λ f. map owned_view f.infos.items };
}

impl FoundInfos {
    /// The infos of a vector; takes no memory.
    pub fn from_vec(infos: Vec<SymInfoBuf>) -> FoundInfos
        ensures { result ≡ map owned_view infos.items }
    {
        FoundInfos { infos }
    }

    /// The infos as a vector; takes no memory.
    pub fn into_vec(self) -> Vec<SymInfoBuf>
        ensures { map owned_view result.items ≡ self }
    {
        self.infos
    }

    /// How many they are.
    pub fn len(&self) -> usize
        ensures { result ≡ length self.now }
    {
        self.infos.len()
    }

    /// The info at an index, none from the length on.
    pub fn get(&self, idx: usize) -> Option<&SymInfoBuf>
        ensures { option_map (λ f. owned_view f.now) result ≡ slice_get self.now idx }
    {
        self.infos.get(idx)
    }

    /// The infos as a slice.
    pub fn as_slice(&self) -> &[SymInfoBuf]
        ensures { map owned_view result.now ≡ self.now }
    {
        self.infos.as_slice()
    }
}

/// The infos of each name, in the order of the names.
#[derive(Drop)]
pub struct Found {
    lists: Vec<FoundInfos>,
}

impl Model for Found {
    ghost use Rattle.std.specs.Prelude.{List};
    ghost use Rattle.blz_elf.specs.Infos.{Info};

    ghost Value = { List (List Info) };

    ghost view = { λ f. f.lists.items };
}

impl Found {
    /// The lists of a vector; takes no memory.
    pub fn from_vec(lists: Vec<FoundInfos>) -> Found
        ensures { result ≡ lists.items }
    {
        Found { lists }
    }

    /// The lists as a vector; takes no memory.
    pub fn into_vec(self) -> Vec<FoundInfos>
        ensures { result.items ≡ self }
    {
        self.lists
    }

    /// How many names were asked.
    pub fn len(&self) -> usize
        ensures { result ≡ length self.now }
    {
        self.lists.len()
    }

    /// The infos of the name at an index, none from the length on.
    pub fn get(&self, idx: usize) -> Option<&FoundInfos>
        ensures { option_map (λ f. f.now) result ≡ slice_get self.now idx }
    {
        self.lists.get(idx)
    }

    /// The lists as a slice.
    pub fn as_slice(&self) -> &[FoundInfos]
        ensures { result.now ≡ self.now }
    {
        self.lists.as_slice()
    }
}
