//! Inlined calls with their places in the sources.
ghost use Rattle.std.specs.Prelude.{◌≡◌, length, map, slice_get};
ghost use Rattle.std.specs.Option.{option_map};
ghost use Rattle.blz_reader.specs.SiteViews.{inlined_view};

use blz_line::Location;
use std::marker::Model;

/// An inlined call with the place that it was called from.
#[derive(Drop)]
pub struct InlinedSite<'b> {
    /// The name of the function that was inlined, empty where it has none.
    pub name: &'b str,
    /// The place of the call; none where it has no file that the unit's lines know.
    pub site: Option<Location<'b>>,
}

/// Inlined calls, the outermost first.
#[derive(Drop)]
pub struct InlinedSites<'b> {
    sites: Vec<InlinedSite<'b>>,
}

impl<'b> Model for InlinedSites<'b> {
    ghost use Rattle.std.specs.Prelude.{List, map};
    ghost use Rattle.blz_model.specs.Answers.{Inlined};
    ghost use Rattle.blz_reader.specs.SiteViews.{inlined_view};

    ghost Value = { List Inlined };

    ghost view = { λ s. map inlined_view s.sites.items };
}

impl<'b> InlinedSites<'b> {
    /// The calls of a vector; takes no memory.
    pub(crate) fn from_vec(sites: Vec<InlinedSite<'b>>) -> InlinedSites<'b>
        ensures { result ≡ map inlined_view sites.entry.items }
    {
        InlinedSites { sites }
    }

    /// How many they are.
    pub fn len(&self) -> usize
        ensures { result ≡ length self.now }
    {
        self.sites.len()
    }

    /// The call at an index, none from the length on.
    pub fn get(&self, idx: usize) -> Option<&InlinedSite<'b>>
        ensures { option_map (λ s. inlined_view s.now) result ≡ slice_get self.now idx }
    {
        self.sites.get(idx)
    }

    /// The calls as a slice.
    pub fn as_slice(&self) -> &[InlinedSite<'b>]
        ensures { map inlined_view result.now ≡ self.now }
    {
        self.sites.as_slice()
    }

    /// The calls as a vector; takes no memory.
    pub fn into_vec(self) -> Vec<InlinedSite<'b>>
        ensures { map inlined_view result.items ≡ self.entry }
    {
        self.sites
    }
}
