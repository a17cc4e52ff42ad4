//! The first entry of a unit, which tells what holds for the whole unit.
ghost use Rattle.std.specs.Prelude.{◌≡◌, ◌<◌, ◌+◌, ◌^◌, length, option_and_then};
ghost use Rattle.blz_model.specs.Part.{Exactly};
ghost use Rattle.blz_entry.specs.Folds.{over_pending};
ghost use Rattle.blz_info.specs.Marks.{or_invalid};
ghost use Rattle.blz_entry.specs.Roots.{first_of, last_offset, noted, noted_step, nothing_noted, base_behind_header, based, with_names, is_address, low_behind, root_step, root_of};
ghost use Rattle.blz_info.specs.Forms.{udata};
ghost use Rattle.blz_entry.specs.StringPlaces.{string_of};

use crate::ranges::{RangeAttributes, range_step};
use crate::strings::attr_string;
use blz_constants::dwarf;
use blz_error::Result;
use blz_info::{Abbreviations, AttrValue, Entries, Sections, StrPlace, UnitHeader, invalid};

/// What the first entry of a unit says (DWARF 5 section 3.1.1).
#[derive(Clone, Copy)]
pub struct UnitRoot {
    /// `DW_AT_name`, where it can be read.
    pub name: Option<StrPlace>,
    /// `DW_AT_comp_dir`, where it can be read.
    pub comp_dir: Option<StrPlace>,
    /// `DW_AT_stmt_list`: where the line program begins in `.debug_line`.
    pub line: Option<u64>,
    /// `DW_AT_low_pc`, and else 0: where ranges count from.
    pub low_pc: u64,
    /// `DW_AT_language`.
    pub language: Option<u64>,
    /// Where the unit's offsets begin in `.debug_str_offsets`.
    pub str_offsets_base: u64,
    /// Where the unit's addresses begin in `.debug_addr`.
    pub addr_base: u64,
    /// Where the unit's offsets begin in `.debug_rnglists`.
    pub rnglists_base: u64,
    /// The attributes that tell the unit's ranges.
    pub ranges: RangeAttributes,
}

/// Attributes of the first entry as they stand there, before the bases of the unit are known.
#[derive(Clone, Copy)]
pub(crate) struct RootValues {
    name: Option<AttrValue>,
    comp_dir: Option<AttrValue>,
    line: Option<u64>,
    language: Option<AttrValue>,
    str_offsets_base: Option<u64>,
    addr_base: Option<u64>,
    rnglists_base: Option<u64>,
}

fn nothing_noted() -> RootValues
    ensures { result ≡ nothing_noted }
{
    RootValues {
        name: None,
        comp_dir: None,
        line: None,
        language: None,
        str_offsets_base: None,
        addr_base: None,
        rnglists_base: None,
    }
}

fn first_of(old: Option<AttrValue>, value: AttrValue) -> Option<AttrValue>
    ensures { result ≡ first_of old value }
{
    match old {
        None => Some(value),
        Some(_) => old,
    }
}

fn last_offset(old: Option<u64>, value: AttrValue) -> Option<u64>
    ensures { result ≡ last_offset old value }
{
    match value {
        AttrValue::SecOffset(offset) => Some(offset),
        _ => old,
    }
}

fn noted(values: RootValues, name: u64, value: AttrValue) -> RootValues
    ensures { result ≡ noted values (name, value) }
{
    match name {
        dwarf::DW_AT_name => RootValues {
            name: Some(value),
            ..values
        },
        dwarf::DW_AT_stmt_list => RootValues {
            line: last_offset(values.line, value),
            ..values
        },
        dwarf::DW_AT_language => RootValues {
            language: first_of(values.language, value),
            ..values
        },
        dwarf::DW_AT_comp_dir => RootValues {
            comp_dir: Some(value),
            ..values
        },
        dwarf::DW_AT_str_offsets_base => RootValues {
            str_offsets_base: last_offset(values.str_offsets_base, value),
            ..values
        },
        dwarf::DW_AT_addr_base => RootValues {
            addr_base: last_offset(values.addr_base, value),
            ..values
        },
        dwarf::DW_AT_rnglists_base => RootValues {
            rnglists_base: last_offset(values.rnglists_base, value),
            ..values
        },
        _ => values,
    }
}

// the attributes of the first entry, in their order
fn noted_over(mut entries: Entries<'_, '_>) -> Option<RootValues>
    ensures { result ≡ over_pending noted_step nothing_noted entries.entry }
{
    let mut values = nothing_noted();
    loop {
        let Some((name, value)) = entries.next_wanted()? else {
            return Some(values);
        };
        values = noted(values, name, value);
    }
}

fn base_behind_header(
    sections: &Sections<'_, '_>,
    header: &UnitHeader,
    narrow: u64,
    wide: u64,
) -> u64
    ensures { result ≡ base_behind_header sections.now header.now narrow wide }
{
    if !(sections.split && header.version == 5) {
        return 0;
    }
    if header.wide { wide } else { narrow }
}

fn number_of(value: Option<AttrValue>) -> Option<u64>
    ensures { result ≡ option_and_then udata value }
{
    match value {
        None => None,
        Some(value) => value.udata(),
    }
}

fn based(sections: &Sections<'_, '_>, header: &UnitHeader, values: RootValues) -> UnitRoot
    ensures { result ≡ based sections.now header.now values }
{
    let strings = base_behind_header(sections, header, 8, 16);
    let lists = base_behind_header(sections, header, 12, 20);
    UnitRoot {
        name: None,
        comp_dir: None,
        line: if sections.split { None } else { values.line },
        low_pc: 0,
        language: number_of(values.language),
        str_offsets_base: values.str_offsets_base.unwrap_or(strings),
        addr_base: values.addr_base.unwrap_or(0),
        rnglists_base: values.rnglists_base.unwrap_or(lists),
        ranges: RangeAttributes {
            low_pc: None,
            high_pc: None,
            size: None,
            ranges_offset: None,
        },
    }
}

fn string_of(
    sections: &Sections<'_, '_>,
    header: &UnitHeader,
    root: &UnitRoot,
    value: Option<AttrValue>,
) -> Option<StrPlace>
    ensures { result ≡ option_and_then (string_of sections.now header.now root.now) value }
{
    match value {
        None => None,
        Some(value) => attr_string(sections, header, root, value),
    }
}

fn with_names(
    sections: &Sections<'_, '_>,
    header: &UnitHeader,
    values: RootValues,
    root: UnitRoot,
) -> UnitRoot
    ensures { result ≡ with_names sections.now header.now values root }
{
    let name = string_of(sections, header, &root, values.name);
    let comp_dir = string_of(sections, header, &root, values.comp_dir);
    UnitRoot {
        name,
        comp_dir,
        ..root
    }
}

fn is_address(value: AttrValue) -> bool
    ensures { result ≡ is_address value }
{
    match value {
        AttrValue::Addr(_) | AttrValue::AddrIndex(_) => true,
        _ => false,
    }
}

fn low_behind(root: &UnitRoot, ranges: &RangeAttributes, name: u64, value: AttrValue) -> u64
    ensures { result ≡ low_behind root.now ranges.now (name, value) }
{
    if name != dwarf::DW_AT_low_pc {
        return root.low_pc;
    }
    if is_address(value) {
        ranges.low_pc.unwrap_or(0)
    } else {
        0
    }
}

#[tactic(auto, unfolding(crate::specs::Roots::root_step))]
fn root_step(
    sections: &Sections<'_, '_>,
    header: &UnitHeader,
    root: UnitRoot,
    name: u64,
    value: AttrValue,
) -> Option<UnitRoot>
    ensures { result ≡ root_step sections.now header.now root (name, value) }
{
    let ranges = range_step(sections, header, &root, root.ranges, name, value)?;
    let low_pc = low_behind(&root, &ranges, name, value);
    Some(UnitRoot {
        low_pc,
        ranges,
        ..root
    })
}

// the ranges that the attributes of the first entry tell, in their order
fn ranged_over(
    sections: &Sections<'_, '_>,
    header: &UnitHeader,
    root: UnitRoot,
    mut entries: Entries<'_, '_>,
) -> Option<UnitRoot>
    ensures { result ≡ over_pending (root_step sections.now header.now) root entries.entry }
{
    let mut root = root;
    loop {
        let Some((name, value)) = entries.next_wanted()? else {
            return Some(root);
        };
        root = root_step(sections, header, root, name, value)?;
    }
}

fn root_of(
    sections: &Sections<'_, '_>,
    header: &UnitHeader,
    abbreviations: &Abbreviations,
) -> Option<UnitRoot>
    requires { sections.now.shift + length sections.now.info.bytes.now < 2 ^ 64 }
    ensures { result ≡ root_of sections.now header.now abbreviations.now }
{
    let first = Entries::opened(sections, header, abbreviations, header.entries)?;
    let values = noted_over(first)?;
    let root = with_names(sections, header, values, based(sections, header, values));
    if sections.split {
        return Some(root);
    }
    // the bases count for the ranges that stand before them too
    let again = Entries::opened(sections, header, abbreviations, header.entries)?;
    ranged_over(sections, header, root, again)
}

impl UnitRoot {
    /// What the first entry of a unit says (DWARF 5 section 3.1.1). InvalidDwarf exactly where there is no such entry, or
    /// an attribute of it has no value, or the index of an address or of a list of ranges lies outside. The abbreviations
    /// are those of the unit. Whether its line program has a header is not asked.
    pub fn parse(
        sections: &Sections<'_, '_>,
        header: &UnitHeader,
        abbreviations: &Abbreviations,
    ) -> Result<UnitRoot>
        requires { sections.now.shift + length sections.now.info.bytes.now < 2 ^ 64 }
        ensures { Exactly (λ r. r) result
            (or_invalid (root_of sections.now header.now abbreviations.now)) }
    {
        match root_of(sections, header, abbreviations) {
            Some(root) => Ok(root),
            None => Err(invalid(
                "the first entry of a unit is not whole, or an index of it lies outside",
            )),
        }
    }
}
