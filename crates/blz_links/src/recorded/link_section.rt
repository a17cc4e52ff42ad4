//! The sections that lead to other files, by their names.
ghost use Rattle.std.specs.Prelude.{◌≡◌};
ghost use Rattle.blz_links.specs.LinkNames.{name_of};

/// A section that leads to another file (GNU debug links, DWARF 5 section 7.3.6).
#[derive(Clone, Copy)]
pub enum LinkSection {
    DebugLink,
    DebugAltlink,
    DebugSup,
}

impl LinkSection {
    #[tactic(auto, unfolding(crate::specs::LinkNames::name_of))]
    pub fn name(self) -> &'static str
        ensures { result.now ≡ name_of self }
    {
        match self {
            LinkSection::DebugLink => ".gnu_debuglink",
            LinkSection::DebugAltlink => ".gnu_debugaltlink",
            LinkSection::DebugSup => ".debug_sup",
        }
    }
}
