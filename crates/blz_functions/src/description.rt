//! What an entry is called and covers.
ghost use Rattle.std.specs.Prelude.{◌≡◌, ◌≤◌, [], false, Option, None, Some, IfOk, MatchResult, if◌then◌else◌};
ghost use Rattle.blz_model.specs.Part.{Gives, Fails};
ghost use Rattle.blz_info.specs.Marks.{or_invalid};
ghost use Rattle.blz_functions.specs.Describing.{tells_range, tells_site, low_bits, kept_file, with_call_site, undescribed, description_step, described, described_if, specs_of};
ghost use Rattle.blz_functions.specs.Leaves.{source_in};
ghost use Rattle.blz_functions.specs.Naming.{name_step};
ghost use Rattle.blz_functions.specs.Opened.{open_view};

use crate::links::Links;
use crate::open_unit::OpenUnit;
use crate::referred::{is_linkage_name, is_name, is_reference, or_else};
use blz_bytes::Room;
use blz_constants::dwarf;
use blz_entry::{AttrValue, Entries, RangeAttributes, StrPlace, invalid, no_attribute};
use blz_error::Result;

/// Where an inlined call stands in the source (DWARF 5 section 3.3.8.2).
#[derive(Clone, Copy)]
pub struct CallSite {
    pub file: Option<u64>,
    pub line: u32,
    pub column: u32,
}

/// What an entry is called, what it covers, and where it is called if it is an inlined call.
#[derive(Clone, Copy)]
pub struct Description {
    pub name: Option<StrPlace>,
    pub ranges: RangeAttributes,
    pub site: CallSite,
}

fn low_bits(number: Option<u64>) -> u32
    ensures { result ≡ low_bits number }
{
    match number {
        Some(number) => (number % (1 << 32)) as u32,
        None => 0,
    }
}

fn kept_file(version: u16, old: Option<u64>, number: Option<u64>) -> Option<u64>
    ensures { result ≡ kept_file version old number }
{
    match number {
        Some(file) if file > 0 || version == 5 => number,
        _ => old,
    }
}

/// `DW_AT_low_pc`, `DW_AT_high_pc` or `DW_AT_ranges`.
fn tells_range(name: u64) -> bool
    ensures { result ≡ tells_range name }
{
    name == dwarf::DW_AT_low_pc || name == dwarf::DW_AT_high_pc || name == dwarf::DW_AT_ranges
}

/// `DW_AT_call_file`, `DW_AT_call_line` or `DW_AT_call_column`.
fn tells_site(name: u64) -> bool
    ensures { result ≡ tells_site name }
{
    name == dwarf::DW_AT_call_file
        || name == dwarf::DW_AT_call_line
        || name == dwarf::DW_AT_call_column
}

impl CallSite {
    /// The site with one attribute more.
    fn with(self, version: u16, name: u64, value: AttrValue) -> CallSite
        ensures { result ≡ with_call_site version self (name, value) }
    {
        match name {
            dwarf::DW_AT_call_file => CallSite {
                file: kept_file(version, self.file, value.udata()),
                ..self
            },
            dwarf::DW_AT_call_line => CallSite {
                line: low_bits(value.udata()),
                ..self
            },
            dwarf::DW_AT_call_column => CallSite {
                column: low_bits(value.udata()),
                ..self
            },
            _ => self,
        }
    }
}

fn undescribed() -> Description
    ensures { result ≡ undescribed }
{
    Description {
        name: None,
        ranges: RangeAttributes {
            low_pc: None,
            high_pc: None,
            size: None,
            ranges_offset: None,
        },
        site: CallSite {
            file: None,
            line: 0,
            column: 0,
        },
    }
}

#[tactic(auto, unfolding(crate::specs::Naming::name_step))]
fn name_with<F: Links>(
    room: &mut Room,
    unit: &OpenUnit<'_, '_>,
    links: &mut F,
    known: Option<StrPlace>,
    name: u64,
    value: AttrValue,
) -> Result<Option<StrPlace>>
    ensures value { Gives (λ n. n) result (or_invalid
        (name_step (F.refer (F.linkage links.old)) (open_view unit.now) known (name, value))) }
    ensures same { F.linkage links.new ≡ F.linkage links.old }
{
    if is_linkage_name(name) {
        return Ok(or_else(unit.string(room, value)?, known));
    }
    if is_name(name) {
        return Ok(match known {
            Some(_) => known,
            None => unit.string(room, value)?,
        });
    }
    if is_reference(name) && known.is_none() {
        return links.follow(room, value);
    }
    Ok(known)
}

impl Description {
    /// One attribute more, which tells no call site; what stands there after an error is not told.
    #[tactic(auto, unfolding(crate::specs::Describing::description_step))]
    fn add<F: Links>(
        &mut self,
        room: &mut Room,
        unit: &OpenUnit<'_, '_>,
        links: &mut F,
        name: u64,
        value: AttrValue,
    ) -> Result<()>
        requires { tells_site name ≡ false }
        ensures value { MatchResult result (λ _. description_step (F.refer (F.linkage links.old))
            (open_view unit.now) self.old (name, value) ≡ Some self.new)
            (λ e. Fails e.kind (or_invalid (description_step (F.refer (F.linkage links.old))
            (open_view unit.now) self.old (name, value)))) }
        ensures same { F.linkage links.new ≡ F.linkage links.old }
    {
        if tells_range(name) {
            self.ranges = unit.with_attribute(self.ranges, name, value)?;
        } else {
            self.name = name_with(room, unit, links, self.name, name, value)?;
        }
        Ok(())
    }

    /// The description of an entry by its attributes that were not read, which take a word of the room each.
    pub fn read<F: Links>(
        room: &mut Room,
        unit: &OpenUnit<'_, '_>,
        links: &mut F,
        entries: &mut Entries<'_, '_>,
    ) -> Result<Description>
        requires { entries.old.source ≡ source_in (open_view unit.now) }
        ensures value { Gives (λ d. (d, entries.new.place)) result
            (or_invalid (described (F.refer (F.linkage links.old)) (open_view unit.now)
            undescribed entries.old.pending entries.old.place)) }
        ensures pending { IfOk result (λ _. entries.new.pending ≡ []) }
        ensures source { entries.new.source ≡ entries.old.source }
        ensures depth { entries.new.depth ≡ entries.old.depth }
        ensures ahead { entries.old.place ≤ entries.new.place }
        ensures same { F.linkage links.new ≡ F.linkage links.old }
    {
        let mut description = undescribed();
        loop {
            let (name, value) = match entries.next_wanted() {
                Some(Some(found)) => found,
                Some(None) => return Ok(description),
                None => return Err(no_attribute()),
            };
            room.take(1)?;
            // most attributes of calls are these, and none of them fails
            if tells_site(name) {
                description.site = description.site.with(unit.header.version, name, value);
                continue;
            }
            match description.add(room, unit, links, name, value) {
                Ok(()) => (),
                Err(fault) => return Err(fault),
            }
        }
    }

    /// The description of the entry that was met last, where it is wanted; a zero has none. Else its attributes are passed
    /// over.
    #[inline(always)]
    #[tactic(auto, unfolding(crate::specs::Describing::described_if, blz_info::specs::Walks::skipped_of))]
    pub fn of_entry<F: Links>(
        room: &mut Room,
        unit: &OpenUnit<'_, '_>,
        links: &mut F,
        entries: &mut Entries<'_, '_>,
        code: u64,
        wanted: bool,
    ) -> Result<Option<Description>>
        requires source { entries.old.source ≡ source_in (open_view unit.now) }
        requires met { entries.old.pending ≡ specs_of (open_view unit.now) code }
        ensures value { Gives (λ d. (d, entries.new.place)) result
            (or_invalid (described_if (F.refer (F.linkage links.old)) (open_view unit.now)
            wanted code entries.old)) }
        ensures pending { IfOk result (λ _. entries.new.pending ≡ []) }
        ensures source { entries.new.source ≡ entries.old.source }
        ensures depth { entries.new.depth ≡ entries.old.depth }
        ensures ahead { entries.old.place ≤ entries.new.place }
        ensures same { F.linkage links.new ≡ F.linkage links.old }
    {
        if !wanted || code == 0 {
            return match entries.skip_attributes() {
                Ok(()) => Ok(None),
                Err(fault) => Err(fault),
            };
        }
        match unit.abbreviations.get(code) {
            Some(_) => match Description::read(room, unit, links, entries) {
                Ok(description) => Ok(Some(description)),
                Err(fault) => Err(fault),
            },
            None => Err(invalid("an entry has a code that no abbreviation has")),
        }
    }
}
