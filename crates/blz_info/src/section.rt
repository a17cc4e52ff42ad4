//! The sections that entries are read from.

ghost use Rattle.std.specs.Prelude.{◌≡◌, ◌≤◌, length};
ghost use Rattle.blz_info.specs.Contents.{section_view, cut};

use blz_model::ByteOrder;
use blz_relocations::RelocationMap;

/// The bytes of a section, its relocations and the byte order of its file.
#[derive(Clone, Copy)]
pub struct Section<'s, 'b> {
    /// The section's bytes.
    pub bytes: &'b [u8],
    /// What is done to the addresses and offsets in them.
    pub relocations: &'s RelocationMap,
    /// The order of their numbers.
    pub order: ByteOrder,
}

/// The DWARF sections of a file, of a split unit or of a supplementary file (DWARF 5 section 7.3 and appendix B).
#[derive(Clone, Copy)]
pub struct Sections<'s, 'b> {
    /// `.debug_abbrev`
    pub abbrev: Section<'s, 'b>,
    /// `.debug_addr`
    pub addr: Section<'s, 'b>,
    /// `.debug_aranges`
    pub aranges: Section<'s, 'b>,
    /// `.debug_info`
    pub info: Section<'s, 'b>,
    /// `.debug_line`
    pub line: Section<'s, 'b>,
    /// `.debug_line_str`
    pub line_str: Section<'s, 'b>,
    /// `.debug_ranges`
    pub ranges: Section<'s, 'b>,
    /// `.debug_rnglists`
    pub rnglists: Section<'s, 'b>,
    /// `.debug_str`
    pub strings: Section<'s, 'b>,
    /// `.debug_str_offsets`
    pub str_offsets: Section<'s, 'b>,
    /// `.debug_str` of the supplementary file
    pub sup_strings: Option<Section<'s, 'b>>,
    /// Where `info` begins in its package's section, and else 0.
    pub shift: usize,
    /// These are the sections of a split unit.
    pub split: bool,
    /// These are the sections of the supplementary file.
    pub sup: bool,
}

/// A section up to a place, or whole where it ends before.
pub fn cut<'s, 'b>(section: &Section<'s, 'b>, end: usize) -> Section<'s, 'b>
    ensures value { section_view result ≡ cut end (section_view section.now) }
    ensures short { length result.bytes.now ≤ end }
    ensures inside { length result.bytes.now ≤ length section.now.bytes.now }
    ensures all { end ≤ length section.now.bytes.now → length result.bytes.now ≡ end }
{
    if end >= section.bytes.len() {
        return *section;
    }
    Section {
        bytes: &section.bytes[..end],
        relocations: section.relocations,
        order: section.order,
    }
}
