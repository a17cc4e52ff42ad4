//! A unit whose entries are read.
ghost use Rattle.std.specs.Prelude.{◌≡◌, ◌&&◌, IfOk, nat_le, if◌then◌else◌};
ghost use Rattle.blz_error.specs.declared.kind.ErrorKind.TheVariants.{InvalidDwarf};
ghost use Rattle.blz_model.specs.Part.{Exactly, Good, Broken};
ghost use Rattle.blz_info.specs.Marks.{or_invalid};
ghost use Rattle.blz_entry.specs.RangeLists.{Appends};
ghost use Rattle.blz_info.specs.Walks.{walk_from};
ghost use Rattle.blz_functions.specs.Leaves.{string_in, range_step_in, ranges_in, source_in};
ghost use Rattle.blz_functions.specs.Opened.{open_view, CanBeOpened};

use blz_bytes::Room;
use blz_entry::{
    Abbreviations, AttrValue, Entries, RangeAttributes, Sections, Span, StrPlace, UnitHeader,
    UnitRoot, attr_string, search_words,
};
use blz_error::Result;
use std::alloc::AllocError;

/// A unit with what its entries are read by.
#[derive(Clone, Copy)]
pub struct OpenUnit<'s, 'b> {
    pub sections: Sections<'s, 'b>,
    pub header: UnitHeader,
    pub abbreviations: &'s Abbreviations,
    pub root: UnitRoot,
}

impl<'s, 'b> OpenUnit<'s, 'b> {
    /// The string of a value, where it has one that can be read. What was searched for its end takes of the room.
    pub fn string(
        &self,
        room: &mut Room,
        value: AttrValue,
    ) -> std::result::Result<Option<StrPlace>, AllocError>
        ensures { IfOk result (λ s. s ≡ string_in (open_view self.now) value) }
    {
        let found = attr_string(&self.sections, &self.header, &self.root, value);
        room.take(search_words(&self.sections, value, found))?;
        Ok(found)
    }

    /// The attributes that tell ranges, with one more.
    #[inline(always)]
    pub fn with_attribute(
        &self,
        ranges: RangeAttributes,
        name: u64,
        value: AttrValue,
    ) -> Result<RangeAttributes>
        ensures { Exactly (λ r. r) result
            (or_invalid (range_step_in (open_view self.now) ranges (name, value))) }
    {
        ranges.with(&self.sections, &self.header, &self.root, name, value)
    }

    /// The entries from a place on. InvalidDwarf exactly where the place is not among those of the unit.
    pub fn entries(&self, at: usize) -> Result<Entries<'s, 'b>>
        requires { CanBeOpened self.now }
        ensures { Exactly (λ e. e) result
            (if nat_le self.now.header.entries at && nat_le at self.now.header.end
            then Good (walk_from (source_in (open_view self.now)) at) else Broken InvalidDwarf) }
    {
        Entries::new(self.sections, self.header, self.abbreviations, at)
    }

    /// Appends the ranges that attributes tell, and says whether there was one.
    pub fn append_ranges(
        &self,
        room: &mut Room,
        ranges: &RangeAttributes,
        out: &mut Vec<Span>,
    ) -> Result<bool>
        ensures { Appends (ranges_in (open_view self.now) ranges.now) out.old.items
            result out.new.items }
    {
        ranges.append_ranges(room, &self.sections, &self.header, &self.root, out)
    }
}
