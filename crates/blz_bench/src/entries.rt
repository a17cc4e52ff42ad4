//! The entries of all units of a file.
ghost use Rattle.std.specs.Prelude.{◌+◌, ◌<◌, ◌^◌, length};

use crate::debug_sections::{sections_of, units_of};
use blz_entry::{Abbreviations, Entries, Sections, UnitHeader, UnitRoot, attr_string};
use blz_error::Result;
use blz_relocations::RelocationMap;
use std::alloc::Global;

const NAME: u64 = 0x03;

/// How many entries the units have. Their attributes are skipped.
pub fn count_entries(alloc: Global, image: &[u8]) -> Result<u64> {
    let none = RelocationMap::new(alloc);
    let sections = sections_of(alloc, image, &none)?;
    let units = units_of(alloc, sections.info)?;
    let mut count: u64 = 0;
    for header in &units {
        count = count.saturating_add(entries_of(alloc, sections, *header)?);
    }
    Ok(count)
}

fn entries_of(alloc: Global, sections: Sections<'_, '_>, header: UnitHeader) -> Result<u64>
    requires { sections.shift + length sections.info.bytes.now < 2 ^ 64 }
{
    let abbreviations = Abbreviations::parse(alloc, sections.abbrev.bytes, header.abbrev)?;
    let mut entries = Entries::new(sections, header, &abbreviations, header.entries)?;
    let mut count: u64 = 0;
    for _ in 0..u64::MAX {
        let Some(entry) = entries.next_entry()? else {
            break;
        };
        if entry.code != 0 {
            count = count.saturating_add(1);
        }
    }
    Ok(count)
}

/// How many entries of the units have a name that can be read.
pub fn count_names(alloc: Global, image: &[u8]) -> Result<u64> {
    let none = RelocationMap::new(alloc);
    let sections = sections_of(alloc, image, &none)?;
    let units = units_of(alloc, sections.info)?;
    let mut count: u64 = 0;
    for header in &units {
        count = count.saturating_add(names_of(alloc, sections, *header)?);
    }
    Ok(count)
}

fn names_of(alloc: Global, sections: Sections<'_, '_>, header: UnitHeader) -> Result<u64>
    requires { sections.shift + length sections.info.bytes.now < 2 ^ 64 }
{
    let abbreviations = Abbreviations::parse(alloc, sections.abbrev.bytes, header.abbrev)?;
    let root = UnitRoot::parse(&sections, &header, &abbreviations)?;
    let mut entries = Entries::new(sections, header, &abbreviations, header.entries)?;
    let mut count: u64 = 0;
    for _ in 0..u64::MAX {
        if entries.next_entry()?.is_none() {
            break;
        }
        if has_name(&sections, &header, &root, &mut entries)? {
            count = count.saturating_add(1);
        }
    }
    Ok(count)
}

// Whether the entry has a name that can be read; its attributes are read up to it.
fn has_name(
    sections: &Sections<'_, '_>,
    header: &UnitHeader,
    root: &UnitRoot,
    entries: &mut Entries<'_, '_>,
) -> Result<bool> {
    for _ in 0..u64::MAX {
        let Some(spec) = entries.pending().first() else {
            break;
        };
        let value = entries.read_attribute(*spec)?;
        if spec.name == NAME {
            return Ok(attr_string(sections, header, root, value).is_some());
        }
    }
    Ok(false)
}
