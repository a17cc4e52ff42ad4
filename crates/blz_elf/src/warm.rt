//! What is kept of an image.
use blz_image::header::Header;
use blz_image::image::Frame;
use blz_image::span::Rows;
use blz_model::Cache;
use blz_relocations::SectionRelocations;
use blz_symbols::name_order::KeptNames;
use blz_symbols::table::Table;
use std::alloc::Global;

/// The parts of an image that were read, as places and numbers.
pub struct ElfWarm {
    pub(crate) header: Cache<Header>,
    pub(crate) sections: Cache<Rows>,
    pub(crate) frame: Cache<Frame>,
    pub(crate) symtab: Cache<Table>,
    pub(crate) dynsym: Cache<Table>,
    pub(crate) symtab_names: Cache<KeptNames>,
    pub(crate) dynsym_names: Cache<KeptNames>,
    pub(crate) relocations: Cache<SectionRelocations>,
    pub(crate) prepared: bool,
    pub(crate) alloc: Global,
}

// Written out, so that letting go of one is a call, which is proved once, and not a walk through it at each place.
impl Drop for ElfWarm {
    fn drop(self) {
        let ElfWarm {
            header: _,
            sections: _,
            frame: _,
            symtab: _,
            dynsym: _,
            symtab_names: _,
            dynsym_names: _,
            relocations: _,
            prepared: _,
            alloc: _,
        } = self;
    }
}
