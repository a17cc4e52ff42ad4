//! The debug information of one image.
ghost use Rattle.std.specs.Prelude.{◌≡◌};
ghost use Rattle.std.specs.FinMap as map;
ghost use Rattle.blz_model.specs.Part.{Gives};
ghost use Rattle.blz_info.specs.FileSections.{sections_view};
ghost use Rattle.blz_resolver.specs.DebugSections.{debug_image, sections_of};
ghost use Rattle.blz_resolver.specs.DebugViews.{debug_view, IsWholeFile};

use crate::debug::debug_data::DebugData;
use blz_elf::{ElfParser, RelocationMap, SectionRelocations};
use blz_entry::Sections;
use blz_error::Result;
use std::alloc::Global;

/// The sections of debug information of an image, and their relocations.
#[derive(Drop)]
pub(crate) struct DebugImage<'b> {
    pub data: DebugData<'b>,
    pub relocations: SectionRelocations,
}

impl<'b> DebugImage<'b> {
    /// Reads the sections of an image and their relocations. Refused by the first mark of header, section table and section
    /// names, then of the relocations, then of the sections in the order of their names.
    #[tactic(auto, unfolding(crate::specs::DebugSections::debug_image, blz_image::specs::Images::image_is_relocatable))]
    pub fn read(alloc: Global, parser: &mut ElfParser<'b>) -> Result<DebugImage<'b>>
        ensures value { Gives debug_view result (debug_image parser.old.image) }
        ensures same { parser.new ≡ parser.old }
    {
        parser.is_relocatable()?;
        parser.check_relocations()?;
        let data = DebugData::read(parser)?;
        let relocations = parser.read_relocations_for(alloc, &data.numbers())?;
        Ok(DebugImage { data, relocations })
    }

    /// The sections that entries are read from; `none` relocates nothing.
    pub fn sections<'s>(&'s self, none: &'s RelocationMap) -> Sections<'s, 'b>
        requires { none.now ≡ map.empty }
        ensures view { sections_view result ≡ sections_of (debug_view self.now) }
        ensures whole { IsWholeFile result }
    {
        self.data.sections(&self.relocations, none)
    }
}
