//! The sections of debug information by their names.
ghost use Rattle.std.specs.Prelude.{◌≡◌};
ghost use Rattle.blz_resolver.specs.DebugSections.{name_of};

/// A section of debug information (DWARF 5 appendix B, and `.debug_ranges` of DWARF 4).
#[derive(Clone, Copy)]
pub(crate) enum DebugSection {
    Abbrev,
    Addr,
    Aranges,
    Info,
    Line,
    LineStr,
    Ranges,
    RngLists,
    Strings,
    StrOffsets,
}

impl DebugSection {
    #[tactic(auto, unfolding(crate::specs::DebugSections::name_of))]
    pub fn name(self) -> &'static str
        ensures { result.now ≡ name_of self }
    {
        match self {
            DebugSection::Abbrev => ".debug_abbrev",
            DebugSection::Addr => ".debug_addr",
            DebugSection::Aranges => ".debug_aranges",
            DebugSection::Info => ".debug_info",
            DebugSection::Line => ".debug_line",
            DebugSection::LineStr => ".debug_line_str",
            DebugSection::Ranges => ".debug_ranges",
            DebugSection::RngLists => ".debug_rnglists",
            DebugSection::Strings => ".debug_str",
            DebugSection::StrOffsets => ".debug_str_offsets",
        }
    }
}
