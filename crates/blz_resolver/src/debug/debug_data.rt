//! The sections of debug information of an image.
ghost use Rattle.std.specs.Prelude.{◌≡◌, ◌<◌, ◌^◌, length};
ghost use Rattle.std.specs.FinMap as map;
ghost use Rattle.blz_model.specs.Part.{Exactly};
ghost use Rattle.blz_info.specs.Contents.{section_view};
ghost use Rattle.blz_info.specs.FileSections.{sections_view};
ghost use Rattle.blz_resolver.specs.DebugSections.{data_numbered, located, debug_parts, relocations_of, contents_with, section_numbers, sections_in};
ghost use Rattle.blz_resolver.specs.DebugViews.{located_view, parts_view, IsWholeFile};

use crate::debug::debug_section::DebugSection;
use blz_elf::{ElfParser, RelocationMap, SectionRelocations};
use blz_entry::{Section, Sections};
use blz_error::Result;
use blz_model::ByteOrder;

/// The bytes of a section, and its number in the section table; neither where it is not there.
#[derive(Clone, Copy)]
pub(crate) struct SectionData<'b> {
    pub bytes: &'b [u8],
    pub number: Option<usize>,
}

/// The sections of debug information of an image, and the byte order of their numbers.
#[derive(Clone, Copy)]
pub(crate) struct DebugData<'b> {
    pub abbrev: SectionData<'b>,
    pub addr: SectionData<'b>,
    pub aranges: SectionData<'b>,
    pub info: SectionData<'b>,
    pub line: SectionData<'b>,
    pub line_str: SectionData<'b>,
    pub ranges: SectionData<'b>,
    pub rnglists: SectionData<'b>,
    pub strings: SectionData<'b>,
    pub str_offsets: SectionData<'b>,
    pub order: ByteOrder,
}

// The data of a section by its number, nothing where there is none.
fn data_of<'b>(parser: &mut ElfParser<'b>, number: Option<usize>) -> Result<&'b [u8]>
    ensures value { Exactly (λ d. d.now) result (data_numbered parser.old.image number) }
    ensures same { parser.new ≡ parser.old }
{
    match number {
        Some(number) => parser.section_data(number),
        None => Ok(&[]),
    }
}

// The name is sought once, and the data taken by the number that it has.
fn section_of<'b>(parser: &mut ElfParser<'b>, section: DebugSection) -> Result<SectionData<'b>>
    ensures value { Exactly located_view result (located parser.old.image section) }
    ensures same { parser.new ≡ parser.old }
{
    let number = parser.find_section(section.name())?;
    let bytes = data_of(parser, number)?;
    Ok(SectionData { bytes, number })
}

// What is done to the numbers of a section: nothing to those of one that is not there.
fn relocations_of<'s>(
    relocations: &'s SectionRelocations,
    none: &'s RelocationMap,
    number: Option<usize>,
) -> &'s RelocationMap
    requires { none.now ≡ map.empty }
    ensures { result.now ≡ relocations_of relocations.now number }
{
    match number {
        Some(number) => relocations.get(number),
        None => none,
    }
}

// The same bytes, which are fewer than an address can count.
fn bounded(bytes: &[u8]) -> &[u8]
    ensures same { result.now ≡ bytes.now }
    ensures short { length result.now < 2 ^ 63 }
{
    bytes
}

impl<'b> SectionData<'b> {
    fn section<'s>(
        &self,
        relocations: &'s SectionRelocations,
        none: &'s RelocationMap,
        order: ByteOrder,
    ) -> Section<'s, 'b>
        requires { none.now ≡ map.empty }
        ensures view { section_view result
            ≡ contents_with order relocations.now (located_view self.now) }
        ensures short { length result.bytes.now < 2 ^ 63 }
    {
        Section {
            bytes: bounded(self.bytes),
            relocations: relocations_of(relocations, none, self.number),
            order,
        }
    }
}

impl<'b> DebugData<'b> {
    /// Reads the sections; takes no memory. Refused by the first mark of header, section table, section names and the
    /// data of the sections in the order of their names.
    #[tactic(auto, unfolding(crate::specs::DebugSections::debug_parts))]
    pub fn read(parser: &mut ElfParser<'b>) -> Result<DebugData<'b>>
        ensures value { Exactly parts_view result (debug_parts parser.old.image) }
        ensures same { parser.new ≡ parser.old }
    {
        let order = parser.order()?;
        let abbrev = section_of(parser, DebugSection::Abbrev)?;
        let addr = section_of(parser, DebugSection::Addr)?;
        let aranges = section_of(parser, DebugSection::Aranges)?;
        let info = section_of(parser, DebugSection::Info)?;
        let line = section_of(parser, DebugSection::Line)?;
        let line_str = section_of(parser, DebugSection::LineStr)?;
        let ranges = section_of(parser, DebugSection::Ranges)?;
        let rnglists = section_of(parser, DebugSection::RngLists)?;
        let strings = section_of(parser, DebugSection::Strings)?;
        let str_offsets = section_of(parser, DebugSection::StrOffsets)?;
        Ok(DebugData {
            abbrev,
            addr,
            aranges,
            info,
            line,
            line_str,
            ranges,
            rnglists,
            strings,
            str_offsets,
            order,
        })
    }

    /// The numbers of the sections, of those that are there.
    pub fn numbers(&self) -> [Option<usize>; 10]
        ensures { result ≡ section_numbers (parts_view self.now) }
    {
        [
            self.abbrev.number,
            self.addr.number,
            self.aranges.number,
            self.info.number,
            self.line.number,
            self.line_str.number,
            self.ranges.number,
            self.rnglists.number,
            self.strings.number,
            self.str_offsets.number,
        ]
    }

    /// The sections with the relocations of their image; `none` relocates nothing.
    pub fn sections<'s>(
        &self,
        relocations: &'s SectionRelocations,
        none: &'s RelocationMap,
    ) -> Sections<'s, 'b>
        requires { none.now ≡ map.empty }
        ensures view { sections_view result ≡ sections_in (parts_view self.now) relocations.now }
        ensures whole { IsWholeFile result }
    {
        Sections {
            abbrev: self.abbrev.section(relocations, none, self.order),
            addr: self.addr.section(relocations, none, self.order),
            aranges: self.aranges.section(relocations, none, self.order),
            info: self.info.section(relocations, none, self.order),
            line: self.line.section(relocations, none, self.order),
            line_str: self.line_str.section(relocations, none, self.order),
            ranges: self.ranges.section(relocations, none, self.order),
            rnglists: self.rnglists.section(relocations, none, self.order),
            strings: self.strings.section(relocations, none, self.order),
            str_offsets: self.str_offsets.section(relocations, none, self.order),
            sup_strings: None,
            shift: 0,
            split: false,
            sup: false,
        }
    }
}
