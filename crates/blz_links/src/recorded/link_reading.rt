//! The links of an image (GNU debug links, DWARF 5 section 7.3.6).
ghost use Rattle.std.specs.Prelude.{◌≡◌};
ghost use Rattle.std.specs.Option.{option_map};
ghost use Rattle.blz_model.specs.Part.{Exactly};
ghost use Rattle.blz_links.specs.LinkNames.{name_of};
ghost use Rattle.blz_links.specs.LinkChecks.{debug_altlink_checks, debug_link_checks, debug_sup_checks};
ghost use Rattle.blz_links.specs.LinkReads.{AsChecked, debug_altlink_in, debug_link_in, debug_sup_in, linked_data};
ghost use Rattle.blz_links.specs.LinkViews.{altlink_view, link_view, sup_view};

use crate::recorded::debug_altlink::{DebugAltlink, parse_debug_altlink};
use crate::recorded::debug_link::{DebugLink, parse_debug_link};
use crate::recorded::debug_sup::{DebugSupInfo, parse_debug_sup};
use crate::recorded::link_section::LinkSection;
use blz_bytes::ByteOrder;
use blz_elf::ElfParser;
use blz_error::Result;

// the bytes of the first section of a name, and the order of their numbers, where the section is found
#[tactic(auto, unfolding(crate::specs::LinkReads::linked_data, crate::specs::LinkReads::ordered_data))]
fn linked_data<'b>(
    parser: &mut ElfParser<'b>,
    section: LinkSection,
) -> Result<Option<(ByteOrder, &'b [u8])>>
    ensures value { Exactly (option_map (λ s. (s.0, s.1.now))) result
        (linked_data parser.old.image (name_of section)) }
    ensures same { parser.new ≡ parser.old }
{
    let Ok(Some(index)) = parser.find_section(section.name()) else {
        return Ok(None);
    };
    let order = parser.order()?;
    let bytes = parser.section_data(index)?;
    Ok(Some((order, bytes)))
}

/// The link of the image's `.gnu_debuglink`. None where `find_section` fails or finds none; refused as `section_data`
/// is, else as `parse_debug_link` is, by the same text.
pub fn read_debug_link<'b>(parser: &mut ElfParser<'b>) -> Result<Option<DebugLink<'b>>>
    ensures value { Exactly (option_map link_view) result (debug_link_in parser.old.image) }
    ensures text { AsChecked link_view debug_link_checks LinkSection.DebugLink
        parser.old.image result }
    ensures same { parser.new ≡ parser.old }
{
    let Some((order, bytes)) = linked_data(parser, LinkSection::DebugLink)? else {
        return Ok(None);
    };
    Ok(Some(parse_debug_link(bytes, order)?))
}

/// The link of the image's `.gnu_debugaltlink`. None where `find_section` fails or finds none; refused as
/// `section_data` is, else as `parse_debug_altlink` is, by the same text.
pub fn read_debug_altlink<'b>(parser: &mut ElfParser<'b>) -> Result<Option<DebugAltlink<'b>>>
    ensures value { Exactly (option_map altlink_view) result (debug_altlink_in parser.old.image) }
    ensures text { AsChecked altlink_view
        (λ _. debug_altlink_checks) LinkSection.DebugAltlink parser.old.image result }
    ensures same { parser.new ≡ parser.old }
{
    let Some((_, bytes)) = linked_data(parser, LinkSection::DebugAltlink)? else {
        return Ok(None);
    };
    Ok(Some(parse_debug_altlink(bytes)?))
}

/// What the image's `.debug_sup` says. None where `find_section` fails or finds none; refused as `section_data` is, else
/// as `parse_debug_sup` is, by the same text.
pub fn read_debug_sup<'b>(parser: &mut ElfParser<'b>) -> Result<Option<DebugSupInfo<'b>>>
    ensures value { Exactly (option_map sup_view) result (debug_sup_in parser.old.image) }
    ensures text { AsChecked sup_view debug_sup_checks LinkSection.DebugSup
        parser.old.image result }
    ensures same { parser.new ≡ parser.old }
{
    let Some((order, bytes)) = linked_data(parser, LinkSection::DebugSup)? else {
        return Ok(None);
    };
    Ok(Some(parse_debug_sup(bytes, order)?))
}
