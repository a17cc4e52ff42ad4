//! Texts by their places.
ghost use Rattle.std.specs.Prelude.{◌≡◌};
ghost use Rattle.blz_info.specs.TextParts.{part_of, text_of};

/// A section that has texts.
#[derive(Clone, Copy, Debug, PartialEq, Eq)]
pub enum StrPart {
    /// `.debug_info`
    Info,
    /// `.debug_line`
    Line,
    /// `.debug_str`
    Strings,
    /// `.debug_line_str`
    LineStr,
    /// `.debug_str` of the supplementary file
    SupStrings,
    /// `.debug_info.dwo` of the package
    PackInfo,
    /// `.debug_str.dwo` of the package
    PackStrings,
    /// `.debug_info` of the supplementary file
    SupInfo,
    /// `.debug_line_str` of the supplementary file
    SupLineStr,
}

/// A text by its section, its first byte there and its length in bytes, without the zero.
#[derive(Clone, Copy, Debug, PartialEq, Eq)]
pub struct StrPlace {
    pub part: StrPart,
    pub start: usize,
    pub len: usize,
}

/// Where the bytes that are read stand: a section that has texts, and the place of their first byte in it.
#[derive(Clone, Copy)]
pub struct StrBase {
    pub part: StrPart,
    pub start: usize,
}

/// The bytes of each section that has texts.
#[derive(Clone, Copy)]
pub struct Texts<'b> {
    pub info: &'b [u8],
    pub line: &'b [u8],
    pub strings: &'b [u8],
    pub line_str: &'b [u8],
    pub sup_strings: &'b [u8],
    pub pack_info: &'b [u8],
    pub pack_strings: &'b [u8],
    pub sup_info: &'b [u8],
    pub sup_line_str: &'b [u8],
}

fn bytes_of<'b>(texts: &Texts<'b>, part: StrPart) -> &'b [u8]
    ensures { result.now ≡ part_of texts.now part }
{
    match part {
        StrPart::Info => texts.info,
        StrPart::Line => texts.line,
        StrPart::Strings => texts.strings,
        StrPart::LineStr => texts.line_str,
        StrPart::SupStrings => texts.sup_strings,
        StrPart::PackInfo => texts.pack_info,
        StrPart::PackStrings => texts.pack_strings,
        StrPart::SupInfo => texts.sup_info,
        StrPart::SupLineStr => texts.sup_line_str,
    }
}

impl<'b> Texts<'b> {
    /// The bytes of a text; of a place that passes its section's end those that lie inside.
    pub fn get(&self, place: StrPlace) -> &'b [u8]
        ensures { result.now ≡ text_of self.now place }
    {
        let bytes = bytes_of(self, place.part);
        let start = place.start.min(bytes.len());
        let len = place.len.min(bytes.len() - start);
        &bytes[start..start + len]
    }
}
