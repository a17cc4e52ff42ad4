//! The files that units are read from.
ghost use Rattle.std.specs.Prelude.{◌≡◌, ◌+◌, ◌<◌, ◌^◌, length, option_map};
ghost use Rattle.blz_info.specs.Contents.{section_view};
ghost use Rattle.blz_units.specs.BuiltUnits.{files_view, sections_from, IsInside, IsReadable};
ghost use Rattle.blz_info.specs.FileSections.{sections_view};
ghost use Rattle.blz_split.specs.SplitSections.{split_sections};
ghost use Rattle.blz_split.specs.PackageParts.{package_view, PiecesFit};

use blz_entry::{Section, Sections, Texts};
use blz_relocations::RelocationMap;
use blz_split::{Package, SplitUnit};

/// The sections of a file with what they refer to: a package of split units, and a supplementary file.
#[derive(Clone, Copy)]
pub struct Dwarf<'s, 'b> {
    /// The sections of the file itself.
    pub main: Sections<'s, 'b>,
    /// The sections that have texts.
    pub texts: Texts<'b>,
    /// The package of its split units.
    pub package: Option<Package<'b>>,
    /// No relocations.
    pub none: &'s RelocationMap,
    /// The sections of its supplementary file.
    pub sup: Option<Sections<'s, 'b>>,
}

/// Where a unit is read from.
#[derive(Clone, Copy)]
pub enum Origin {
    /// The file itself.
    Main,
    /// Pieces of the package.
    Split(SplitUnit),
    /// The supplementary file.
    Sup,
}

/// A section for as long as it is lent.
fn section_in<'u, 's, 'b>(section: &'u Section<'s, 'b>) -> Section<'u, 'b>
    ensures view { section_view result ≡ section_view section.now }
    ensures bytes { result.bytes.now ≡ section.now.bytes.now }
{
    Section {
        bytes: section.bytes,
        relocations: section.relocations,
        order: section.order,
    }
}

/// Strings of the supplementary file for as long as they are lent.
fn strings_in<'u, 's, 'b>(strings: &'u Option<Section<'s, 'b>>) -> Option<Section<'u, 'b>>
    ensures { option_map section_view result ≡ option_map section_view strings.now }
{
    match strings {
        Some(section) => Some(section_in(section)),
        None => None,
    }
}

/// Sections for as long as they are lent.
fn sections_in<'u, 's, 'b>(sections: &'u Sections<'s, 'b>) -> Sections<'u, 'b>
    ensures view { sections_view result ≡ sections_view sections.now }
    ensures end { result.shift + length result.info.bytes.now
        ≡ sections.now.shift + length sections.now.info.bytes.now }
{
    Sections {
        abbrev: section_in(&sections.abbrev),
        addr: section_in(&sections.addr),
        aranges: section_in(&sections.aranges),
        info: section_in(&sections.info),
        line: section_in(&sections.line),
        line_str: section_in(&sections.line_str),
        ranges: section_in(&sections.ranges),
        rnglists: section_in(&sections.rnglists),
        strings: section_in(&sections.strings),
        str_offsets: section_in(&sections.str_offsets),
        sup_strings: strings_in(&sections.sup_strings),
        shift: sections.shift,
        split: sections.split,
        sup: sections.sup,
    }
}

/// The sections of pieces of a package.
fn sections_of<'s, 'b>(
    parts: &Package<'b>,
    pieces: &SplitUnit,
    main: &Sections<'s, 'b>,
    none: &'s RelocationMap,
) -> Sections<'s, 'b>
    requires { PiecesFit (package_view parts.now) pieces.now }
    ensures view { sections_view result
        ≡ split_sections (package_view parts.now) pieces.now (sections_view main.now) none.now }
    ensures fits { result.shift + length result.info.bytes.now < 2 ^ 64 }
{
    let whole = parts.info();
    prove!(pieces.info.start + pieces.info.len <= whole.len());
    parts.sections(pieces, main, none)
}

/// The bytes of some sections.
fn bytes_of(sections: &Sections<'_, '_>) -> u64 {
    let lengths = [
        sections.abbrev.bytes.len(),
        sections.addr.bytes.len(),
        sections.aranges.bytes.len(),
        sections.info.bytes.len(),
        sections.line.bytes.len(),
        sections.line_str.bytes.len(),
        sections.ranges.bytes.len(),
        sections.rnglists.bytes.len(),
        sections.strings.bytes.len(),
        sections.str_offsets.bytes.len(),
    ];
    let mut bytes: u64 = 0;
    for length in lengths {
        bytes = bytes.saturating_add(length as u64);
    }
    bytes
}

/// The bytes of what a package tells of its units.
fn package_bytes(parts: &Package<'_>) -> u64 {
    let bytes = (parts.info().len() as u64).saturating_add(parts.abbrev().len() as u64);
    bytes.saturating_add(parts.strings().len() as u64)
}

impl<'s, 'b> Dwarf<'s, 'b> {
    /// The bytes of the sections of all files.
    pub fn size(&self) -> u64 {
        let mut bytes = bytes_of(&self.main);
        if let Some(parts) = &self.package {
            bytes = bytes.saturating_add(package_bytes(parts));
        }
        if let Some(sections) = &self.sup {
            bytes = bytes.saturating_add(bytes_of(sections));
        }
        bytes
    }

    /// The sections of an origin; where it is not there, those of the file itself.
    pub(crate) fn sections<'u>(&'u self, origin: &Origin) -> Sections<'u, 'b>
        requires readable { IsReadable self.now }
        requires inside { IsInside (files_view self.now).«package» origin.now }
        ensures view { sections_view result ≡ sections_from (files_view self.now) origin.now }
        ensures fits { result.shift + length result.info.bytes.now < 2 ^ 64 }
    {
        match origin {
            Origin::Main => sections_in(&self.main),
            Origin::Split(pieces) => match &self.package {
                Some(parts) => sections_of(parts, pieces, &sections_in(&self.main), self.none),
                None => sections_in(&self.main),
            },
            Origin::Sup => match &self.sup {
                Some(sections) => sections_in(sections),
                None => sections_in(&self.main),
            },
        }
    }

    /// The same for as long as the files lie in memory.
    pub fn whole_sections(&self, origin: &Origin) -> Sections<'s, 'b>
        requires readable { IsReadable self.now }
        requires inside { IsInside (files_view self.now).«package» origin.now }
        ensures view { sections_view result ≡ sections_from (files_view self.now) origin.now }
        ensures fits { result.shift + length result.info.bytes.now < 2 ^ 64 }
    {
        match origin {
            Origin::Main => self.main,
            Origin::Split(pieces) => match &self.package {
                Some(parts) => sections_of(parts, pieces, &self.main, self.none),
                None => self.main,
            },
            Origin::Sup => match self.sup {
                Some(sections) => sections,
                None => self.main,
            },
        }
    }
}
