//! All entries of a unit at once.
ghost use Rattle.std.specs.Prelude.{◌≡◌, ◌≤◌, ◌<◌, ◌+◌, ◌^◌, length, map, OnOk, Some, []};
ghost use Rattle.blz_model.specs.Part.{Gives};
ghost use Rattle.blz_info.specs.Attributes.{attributes};
ghost use Rattle.blz_info.specs.Listing.{listed_view, rest_of, trees_of};
ghost use Rattle.blz_info.specs.Marks.{or_invalid};
ghost use Rattle.blz_info.specs.Walks.{source_of};

use crate::abbreviations::{Abbreviations, AttrSpec};
use crate::entries::{Entries, Entry};
use crate::forms::value::AttrValue;
use crate::section::Sections;
use crate::units::UnitHeader;
use blz_error::Result;
use std::alloc::Global;

/// An entry with the values of its attributes, each with its name.
#[derive(Drop)]
pub struct Listed {
    /// The entry.
    pub entry: Entry,
    /// Its attributes.
    pub attributes: Vec<(u64, AttrValue)>,
}

fn read_attributes(
    alloc: Global,
    entries: &mut Entries<'_, '_>,
    specs: &[AttrSpec],
) -> Result<Vec<(u64, AttrValue)>>
    requires { entries.old.pending ≡ specs.now }
    ensures value { Gives (λ v. (v.items, entries.new.place)) result
        (or_invalid (attributes specs.now entries.old.source.encoding entries.old.source.base
        entries.old.source.section entries.old.place)) }
    ensures all { OnOk result (entries.new.pending ≡ []) }
    ensures source { entries.new.source ≡ entries.old.source }
    ensures depth { entries.new.depth ≡ entries.old.depth }
    ensures ahead { entries.old.place ≤ entries.new.place }
{
    let mut found = Vec::new(alloc);
    for spec in specs {
        let value = entries.read_attribute(*spec)?;
        found.push((spec.name, value))?;
    }
    Ok(found)
}

impl<'s, 'b> Entries<'s, 'b> {
    // the entries from here on, without the closing zeros
    fn list(&mut self, alloc: Global) -> Result<Vec<Listed>>
        ensures { Gives (λ v. map listed_view v.items) result (or_invalid (rest_of self.old)) }
    {
        let mut listed = Vec::new(alloc);
        while let Some(entry) = self.next_entry()? {
            if entry.code == 0 {
                continue;
            }
            let specs = self.pending();
            let attributes = read_attributes(alloc, self, specs)?;
            listed.push(Listed { entry, attributes })?;
        }
        Ok(listed)
    }
}

/// All entries of a unit with their attributes, in the order of the preorder of its trees (DWARF 5 section 2.3).
/// InvalidDwarf exactly where one of them cannot be read. The header and the abbreviations are those of the unit.
pub fn list_unit(
    alloc: Global,
    sections: Sections<'_, '_>,
    header: UnitHeader,
    abbreviations: &Abbreviations,
) -> Result<Vec<Listed>>
    requires shift { sections.shift + length sections.info.bytes.now < 2 ^ 64 }
    requires order { header.entries ≤ header.end }
    ensures { Gives (λ v. map listed_view v.items) result (or_invalid
        (trees_of (source_of sections.entry header abbreviations.now) header.entries)) }
{
    let mut entries = Entries::new(sections, header, abbreviations, header.entries)?;
    entries.list(alloc)
}
