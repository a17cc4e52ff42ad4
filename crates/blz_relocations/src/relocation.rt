//! The relocations of a file whose sections have no addresses yet (ELF gABI, Relocation).
ghost use Rattle.std.specs.Prelude.{◌≡◌, OnOk, OnErr};
ghost use Rattle.std.specs.FinMap as map;
ghost use Rattle.blz_relocations.specs.Relocations.{relocated, relocation_of, section_map, with_absent, with_relocation};

use std::alloc::{AllocError, Global};
use std::collections::BTreeMap;
use std::marker::Model;

/// What a relocation does to the number that is read.
#[derive(Clone, Copy)]
pub(crate) enum Relocation {
    /// The number is this one, whatever is read (SHT_RELA).
    Replaces(u64),
    /// This number is added, modulo two to the 64 (SHT_REL).
    Adds(u64),
}

/// A number that is added where the addend is implicit, else put in place of what is read.
fn make_relocation(addend: u64, implicit: bool) -> Relocation
    ensures { result ≡ relocation_of addend implicit }
{
    if implicit {
        Relocation::Adds(addend)
    } else {
        Relocation::Replaces(addend)
    }
}

/// The relocations of one section, by the offset of the field. The last one at an offset decides.
#[derive(Drop)]
pub struct RelocationMap {
    entries: BTreeMap<u64, Relocation>,
}

impl Model for RelocationMap {
    ghost use Rattle.blz_relocations.specs.Relocations.{OffsetMap, relocation_code};
    ghost use Rattle.std.specs.Coded.{coded_ℕ};
    ghost use Rattle.std.specs.FinMap as map;

    ghost Value = { OffsetMap };

    ghost coded = { map.code coded_ℕ relocation_code };

    ghost view = { λ m. map.from_entries m.entries.entries };
}

impl RelocationMap {
    /// No relocation.
    pub fn new(alloc: Global) -> RelocationMap
        ensures { result ≡ map.empty }
    {
        RelocationMap {
            entries: BTreeMap::new(alloc),
        }
    }

    /// Puts a relocation, which replaces the number at that offset, or adds to it where the addend is implicit.
    pub fn insert(&mut self, offset: u64, addend: u64, implicit: bool) -> Result<(), AllocError>
        ensures ok { OnOk result
            (self.new ≡ map.insert self.old offset (relocation_of addend implicit)) }
        ensures err { OnErr result (self.new ≡ self.old) }
    {
        let relocation = make_relocation(addend, implicit);
        self.entries.insert(offset, relocation)?;
        Ok(())
    }

    /// Puts a relocation where the offset has none yet.
    pub fn insert_absent(
        &mut self,
        offset: u64,
        addend: u64,
        implicit: bool,
    ) -> Result<(), AllocError>
        ensures ok { OnOk result
            (self.new ≡ with_absent self.old offset (relocation_of addend implicit)) }
        ensures err { OnErr result (self.new ≡ self.old) }
    {
        let relocation = make_relocation(addend, implicit);
        // one that is there is rare: it is put back
        match self.entries.insert(offset, relocation)? {
            None => Ok(()),
            Some(was) => {
                self.entries.insert(offset, was)?;
                Ok(())
            }
        }
    }

    /// The number at an offset after its relocation.
    pub fn relocate(&self, offset: u64, value: u64) -> u64
        ensures { result ≡ relocated (map.get self.now offset) value }
    {
        match self.entries.get(&offset) {
            None => value,
            Some(Relocation::Replaces(number)) => *number,
            Some(Relocation::Adds(number)) => value.wrapping_add(*number),
        }
    }
}

/// The relocations of all sections, by the number of the section.
pub struct SectionRelocations {
    maps: BTreeMap<usize, RelocationMap>,
    none: RelocationMap,
}

// Written out, so that letting go of one is a call, which is proved once, and not a walk through it at each place.
impl Drop for SectionRelocations {
    fn drop(self) {
        let SectionRelocations { maps: _, none: _ } = self;
    }
}

impl Model for SectionRelocations {
    ghost use Rattle.std.specs.Prelude.{◌≡◌};
    ghost use Rattle.blz_relocations.specs.Relocations.{SectionMap, relocation_code};
    ghost use Rattle.std.specs.Coded.{coded_ℕ};
    ghost use Rattle.std.specs.FinMap as map;

    ghost Value = { SectionMap };

    ghost coded = { map.code coded_ℕ (map.code coded_ℕ relocation_code) };

    ghost view = { λ s. map.from_entries s.maps.entries };

    ghost invariant = { λ s. s.none ≡ map.empty };
}

impl SectionRelocations {
    /// No relocations, as in a file that is no relocatable one.
    pub fn empty(alloc: Global) -> SectionRelocations
        ensures { result ≡ map.empty }
    {
        SectionRelocations::new(alloc, BTreeMap::new(alloc))
    }

    /// Those of a map from the number of a section to its relocations.
    pub fn new(alloc: Global, maps: BTreeMap<usize, RelocationMap>) -> SectionRelocations
        ensures { result ≡ map.from_entries maps.entries }
    {
        SectionRelocations {
            maps,
            none: RelocationMap::new(alloc),
        }
    }

    /// The relocations of a section: the empty map where there are none.
    pub fn get(&self, target_idx: usize) -> &RelocationMap
        ensures { result.now ≡ section_map self.now target_idx }
    {
        self.maps.get(&target_idx).unwrap_or(&self.none)
    }

    /// Puts the relocations of a section in place of those that it has.
    pub fn put(&mut self, target_idx: usize, relocations: RelocationMap) -> Result<(), AllocError>
        ensures ok { OnOk result (self.new ≡ map.insert self.old target_idx relocations) }
        ensures err { OnErr result (self.new ≡ self.old) }
    {
        self.maps.insert(target_idx, relocations)?;
        Ok(())
    }

    /// Puts a relocation of a section, as in the map of that section.
    pub fn insert(
        &mut self,
        alloc: Global,
        target_idx: usize,
        offset: u64,
        addend: u64,
        implicit: bool,
    ) -> Result<(), AllocError>
        ensures ok { OnOk result (self.new
            ≡ with_relocation self.old target_idx offset (relocation_of addend implicit)) }
        ensures err { OnErr result (self.new ≡ self.old) }
    {
        if let Some(map) = self.maps.get_mut(&target_idx) {
            map.insert(offset, addend, implicit)?;
            return Ok(());
        }
        let mut map = RelocationMap::new(alloc);
        map.insert(offset, addend, implicit)?;
        self.maps.insert(target_idx, map)?;
        Ok(())
    }
}
