//! The links of an open file.
ghost use Rattle.std.specs.Prelude.{◌≡◌};
ghost use Rattle.std.specs.Option.{option_map};
ghost use Rattle.blz_bundle.specs.OwnedViews.{file_at};
ghost use Rattle.blz_links.specs.BuildIds.{build_id_of};
ghost use Rattle.blz_links.specs.LinkReads.{debug_altlink_in, debug_link_in, debug_sup_in};
ghost use Rattle.blz_links.specs.LinkViews.{altlink_view, link_view, sup_view};
ghost use Rattle.blz_model.specs.Part.{Exactly};

use crate::open_file::OpenFile;
use blz_elf::ElfParser;
use blz_error::Result;
use blz_links::{
    DebugAltlink, DebugLink, DebugSupInfo, read_build_id, read_debug_altlink, read_debug_link,
    read_debug_sup,
};
use std::alloc::Global;

impl OpenFile {
    pub fn debug_link(&self, alloc: Global) -> Result<Option<DebugLink<'_>>>
        ensures { Exactly (option_map link_view) result (debug_link_in (file_at self.now).image) }
    {
        let mut parser = ElfParser::from_mem(alloc, &self.image, None);
        read_debug_link(&mut parser)
    }

    pub fn debug_altlink(&self, alloc: Global) -> Result<Option<DebugAltlink<'_>>>
        ensures { Exactly (option_map altlink_view) result
            (debug_altlink_in (file_at self.now).image) }
    {
        let mut parser = ElfParser::from_mem(alloc, &self.image, None);
        read_debug_altlink(&mut parser)
    }

    pub fn debug_sup(&self, alloc: Global) -> Result<Option<DebugSupInfo<'_>>>
        ensures { Exactly (option_map sup_view) result (debug_sup_in (file_at self.now).image) }
    {
        let mut parser = ElfParser::from_mem(alloc, &self.image, None);
        read_debug_sup(&mut parser)
    }

    pub fn build_id(&self, alloc: Global) -> Option<&[u8]>
        ensures { option_map (λ id. id.now) result ≡ build_id_of (file_at self.now).image }
    {
        let mut parser = ElfParser::from_mem(alloc, &self.image, None);
        read_build_id(&mut parser)
    }
}
