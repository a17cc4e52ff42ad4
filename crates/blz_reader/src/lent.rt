//! Files for as long as they are lent, under one lifetime.
ghost use Rattle.std.specs.Prelude.{◌≡◌};

use blz_entry::{Section, Sections, Texts};
use blz_split::Package;
use blz_units::dwarf::Dwarf;

fn section<'u>(section: &'u Section<'_, '_>) -> Section<'u, 'u>
    ensures { result ≡ section.now }
{
    Section {
        bytes: section.bytes,
        relocations: section.relocations,
        order: section.order,
    }
}

fn strings<'u>(strings: &'u Option<Section<'_, '_>>) -> Option<Section<'u, 'u>>
    ensures { result ≡ strings.now }
{
    match strings {
        Some(strings) => Some(section(strings)),
        None => None,
    }
}

fn sections<'u>(sections: &'u Sections<'_, '_>) -> Sections<'u, 'u>
    ensures { result ≡ sections.now }
{
    Sections {
        abbrev: section(&sections.abbrev),
        addr: section(&sections.addr),
        aranges: section(&sections.aranges),
        info: section(&sections.info),
        line: section(&sections.line),
        line_str: section(&sections.line_str),
        ranges: section(&sections.ranges),
        rnglists: section(&sections.rnglists),
        strings: section(&sections.strings),
        str_offsets: section(&sections.str_offsets),
        sup_strings: strings(&sections.sup_strings),
        shift: sections.shift,
        split: sections.split,
        sup: sections.sup,
    }
}

fn further_sections<'u>(further: &'u Option<Sections<'_, '_>>) -> Option<Sections<'u, 'u>>
    ensures { result ≡ further.now }
{
    match further {
        Some(further) => Some(sections(further)),
        None => None,
    }
}

fn parts<'u>(parts: &'u Option<Package<'_>>) -> Option<Package<'u>>
    ensures { result ≡ parts.now }
{
    match parts {
        Some(parts) => Some(parts.lent()),
        None => None,
    }
}

fn texts<'u>(texts: &'u Texts<'_>) -> Texts<'u>
    ensures { result ≡ texts.now }
{
    Texts {
        info: texts.info,
        line: texts.line,
        strings: texts.strings,
        line_str: texts.line_str,
        sup_strings: texts.sup_strings,
        pack_info: texts.pack_info,
        pack_strings: texts.pack_strings,
        sup_info: texts.sup_info,
        sup_line_str: texts.sup_line_str,
    }
}

/// The same files.
pub fn lent<'u>(dwarf: &'u Dwarf<'_, '_>) -> Dwarf<'u, 'u>
    ensures { result ≡ dwarf.now }
{
    Dwarf {
        main: sections(&dwarf.main),
        texts: texts(&dwarf.texts),
        package: parts(&dwarf.package),
        none: dwarf.none,
        sup: further_sections(&dwarf.sup),
    }
}
