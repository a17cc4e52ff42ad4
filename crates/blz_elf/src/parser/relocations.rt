//! The relocations of an image.
ghost use Rattle.std.specs.Prelude.{◌≡◌, true, OnOk, OnErr};
ghost use Rattle.blz_model.specs.Part.{Exactly, Gives};
ghost use Rattle.blz_image.specs.RelocationTables.{image_relocations, mark_in, maps_in};

use crate::fill::fill_relocations;
use crate::parser::ElfParser;
use blz_error::{Error, Result, Str};
use blz_image::relocations::relocating::{check_relocations, relocations, relocations_for};
use blz_model::Cache;
use blz_relocations::SectionRelocations;
use std::alloc::{AllocError, Global};

impl ElfParser<'_> {
    /// Reads the relocations of a relocatable file, or finds their first mark, and keeps that for `filled_relocations`.
    pub fn fill_relocations(&mut self, alloc: Global) -> std::result::Result<(), AllocError>
        ensures image { self.new.image ≡ self.old.image }
        ensures module_name { self.new.module_name ≡ self.old.module_name }
        ensures prepared { self.new.prepared ≡ self.old.prepared }
        ensures filled { OnOk result (self.new.relocated ≡ true) }
        ensures refused { OnErr result (self.new.relocated ≡ self.old.relocated) }
    {
        let header = self.header();
        let rows = self.rows();
        fill_relocations(alloc, &mut self.warm.relocations, self.image, header, rows)
    }

    /// The relocations that `fill_relocations` has read, without memory; refused as `section_relocations` is.
    pub fn filled_relocations(&self) -> Result<&SectionRelocations>
        requires { self.now.relocated ≡ true }
        ensures { Exactly (λ m. m.now) result (image_relocations self.now.image) }
    {
        match &self.warm.relocations {
            Cache::Value(map) => Ok(map),
            Cache::Mark(kind) => Err(Error::new(*kind, Str::fixed("relocations"))),
            Cache::Empty => unreachable!(),
        }
    }

    /// The relocations of a relocatable file, by the section that they change (ELF gABI, Relocation); none in other
    /// files. Refused by the first mark of header, section table and relocations: InvalidData, InvalidInput or
    /// Unsupported. It is `fill_relocations` and then `filled_relocations`, which say what the parser is afterwards.
    pub fn section_relocations(&mut self, alloc: Global) -> Result<&SectionRelocations>
        ensures value { Gives (λ m. m.now) result (image_relocations self.old.image) }
    {
        self.fill_relocations(alloc)?;
        self.filled_relocations()
    }

    /// The same relocations, read anew and given to the caller.
    #[tactic(auto, unfolding(blz_image::specs::RelocationTables::image_relocations, blz_image::specs::Images::image_sections))]
    pub fn read_relocations(&mut self, alloc: Global) -> Result<SectionRelocations>
        ensures value { Gives (λ m. m) result (image_relocations self.old.image) }
        ensures same { self.new ≡ self.old }
    {
        let header = self.header()?;
        let rows = self.rows()?;
        relocations(alloc, self.image, header, rows)
    }

    /// Looks for the mark that `section_relocations` is refused by; takes no memory.
    #[tactic(auto, unfolding(blz_image::specs::RelocationTables::image_relocations, blz_image::specs::Images::image_sections))]
    pub fn check_relocations(&mut self) -> Result<()>
        ensures value { Exactly (λ _. tt) result (mark_in (image_relocations self.old.image)) }
        ensures same { self.new ≡ self.old }
    {
        let header = self.header()?;
        let rows = self.rows()?;
        check_relocations(self.image, header, rows)
    }

    /// Of the relocations those of the sections of these numbers, read anew and given to the caller. Each section reads a
    /// place of the image once, whatever its tables share.
    #[tactic(auto, unfolding(blz_image::specs::RelocationTables::image_relocations, blz_image::specs::Images::image_sections))]
    pub fn read_relocations_for(
        &mut self,
        alloc: Global,
        targets: &[Option<usize>],
    ) -> Result<SectionRelocations>
        ensures value { Gives (λ m. m) result
            (maps_in targets.now (image_relocations self.old.image)) }
        ensures same { self.new ≡ self.old }
    {
        let header = self.header()?;
        let rows = self.rows()?;
        relocations_for(alloc, self.image, header, rows, targets)
    }
}
