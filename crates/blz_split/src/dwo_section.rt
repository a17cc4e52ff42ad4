//! The sections of a package by their names.
ghost use Rattle.std.specs.Prelude.{◌≡◌};
ghost use Rattle.blz_split.specs.SectionNames.{name_of};

/// A section of a package (DWARF 5 section 7.3.5.1).
#[derive(Clone, Copy)]
pub enum DwoSection {
    Abbrev,
    Index,
    Info,
    RngLists,
    Strings,
    StrOffsets,
}

impl DwoSection {
    #[tactic(auto, unfolding(crate::specs::SectionNames::name_of))]
    pub fn name(self) -> &'static str
        ensures { result.now ≡ name_of self }
    {
        match self {
            DwoSection::Abbrev => ".debug_abbrev.dwo",
            DwoSection::Index => ".debug_cu_index",
            DwoSection::Info => ".debug_info.dwo",
            DwoSection::RngLists => ".debug_rnglists.dwo",
            DwoSection::Strings => ".debug_str.dwo",
            DwoSection::StrOffsets => ".debug_str_offsets.dwo",
        }
    }
}
