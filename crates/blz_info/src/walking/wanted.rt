//! Attributes whose values tell what a function or a call is, its names, the addresses that it covers, and where it is
//! called, or what holds for a whole unit.
ghost use Rattle.std.specs.Prelude.{◌≡◌, ◌≤◌, ◌<◌, ◌+◌, ◌^◌, length, IfSome, MatchOption, option_map};
ghost use Rattle.blz_info.specs.Contents.{section_view, StaysIn};
ghost use Rattle.blz_info.specs.Wanted.{is_wanted, is_placing, any_placing, wanted_in, met_view};

use crate::abbreviations::AttrSpec;
use crate::attributes::attribute;
use crate::encoding::Encoding;
use crate::forms::value::AttrValue;
use crate::section::Section;
use crate::text::StrBase;
use blz_constants::dwarf;

/// What a search for the next wanted attribute has met.
#[derive(Clone, Copy)]
pub struct Met {
    /// Its name and its value, where there is one.
    pub(crate) found: Option<(u64, AttrValue)>,
    /// How many attributes were passed over or read.
    pub(crate) count: usize,
    /// How many runs these are, where they stand in runs.
    pub(crate) runs: usize,
    /// The place behind them.
    pub(crate) place: usize,
}

/// The attribute is wanted where what an entry is called and covers is read, or what a unit says of itself.
#[tactic(auto, unfolding(crate::specs::Wanted::is_wanted))]
pub(crate) fn is_wanted(name: u64) -> bool
    ensures { result ≡ is_wanted name }
{
    match name {
        dwarf::DW_AT_name
        | dwarf::DW_AT_low_pc
        | dwarf::DW_AT_high_pc
        | dwarf::DW_AT_abstract_origin
        | dwarf::DW_AT_specification
        | dwarf::DW_AT_ranges
        | dwarf::DW_AT_call_column
        | dwarf::DW_AT_call_file
        | dwarf::DW_AT_call_line
        | dwarf::DW_AT_linkage_name
        | dwarf::DW_AT_MIPS_linkage_name
        | dwarf::DW_AT_stmt_list
        | dwarf::DW_AT_language
        | dwarf::DW_AT_comp_dir
        | dwarf::DW_AT_str_offsets_base
        | dwarf::DW_AT_addr_base
        | dwarf::DW_AT_rnglists_base => true,
        _ => false,
    }
}

/// The attribute tells addresses that its entry covers, or another entry that it stands for.
#[tactic(auto, unfolding(crate::specs::Wanted::is_placing))]
fn is_placing(name: u64) -> bool
    ensures { result ≡ is_placing name }
{
    match name {
        dwarf::DW_AT_low_pc
        | dwarf::DW_AT_high_pc
        | dwarf::DW_AT_ranges
        | dwarf::DW_AT_abstract_origin
        | dwarf::DW_AT_specification => true,
        _ => false,
    }
}

pub(crate) fn any_placing(specs: &[AttrSpec]) -> bool
    ensures { result ≡ any_placing specs.now }
{
    for spec in specs {
        if is_placing(spec.name) {
            return true;
        }
    }
    false
}

/// The next wanted one of some attributes.
pub(crate) fn wanted_in(
    specs: &[AttrSpec],
    encoding: Encoding,
    base: StrBase,
    section: &Section<'_, '_>,
    at: usize,
) -> Option<Met>
    requires { base.start + length section.now.bytes.now < 2 ^ 64 }
    ensures value { option_map (met_view specs.now) result
        ≡ wanted_in specs.now encoding base (section_view section.now) at }
    ensures counted { IfSome result (λ m. (m.count ≤ length specs.now) × (m.runs ≡ 0)) }
    ensures some { IfSome result
        (λ m. MatchOption m.found (m.count ≡ length specs.now) (λ _. 0 < m.count)) }
    ensures within { IfSome result (λ m. StaysIn section.now.bytes.now at m.place) }
{
    let mut place = at;
    for (index, spec) in specs.iter().enumerate() {
        let (value, next) = attribute(*spec, encoding, base, section, place)?;
        if is_wanted(spec.name) {
            return Some(Met {
                found: Some((spec.name, value)),
                count: index + 1,
                runs: 0,
                place: next,
            });
        }
        place = next;
    }
    Some(Met {
        found: None,
        count: specs.len(),
        runs: 0,
        place,
    })
}
