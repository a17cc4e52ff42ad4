//! An entry that another one refers to.
ghost use Rattle.std.specs.Prelude.{◌≡◌, IfOk, Option, None, Some, if◌then◌else◌};
ghost use Rattle.blz_model.specs.Part.{Gives};
ghost use Rattle.blz_info.specs.Marks.{or_invalid};
ghost use Rattle.blz_functions.specs.Leaves.{source_in};
ghost use Rattle.blz_functions.specs.Naming.{is_linkage_name, is_name, is_reference, or_else, linkage_of, told_name, link_behind, visit_end, visit_from, visited};
ghost use Rattle.blz_functions.specs.Opened.{open_view, CanBeOpened};

use crate::open_unit::OpenUnit;
use crate::walking::walk_words;
use blz_bytes::Room;
use blz_constants::dwarf;
use blz_entry::{AttrValue, Entries, StrPlace, invalid, no_attribute};
use blz_error::Result;
use std::alloc::AllocError;

/// What an entry tells of a name.
#[derive(Clone, Copy)]
pub enum Visited {
    /// Its name.
    Named(StrPlace),
    /// It has none, and refers to another entry.
    Leads(AttrValue),
    /// It has none.
    Nameless,
}

/// `DW_AT_linkage_name` or `DW_AT_MIPS_linkage_name`.
pub fn is_linkage_name(name: u64) -> bool
    ensures { result ≡ is_linkage_name name }
{
    name == dwarf::DW_AT_linkage_name || name == dwarf::DW_AT_MIPS_linkage_name
}

/// `DW_AT_name`.
pub fn is_name(name: u64) -> bool
    ensures { result ≡ is_name name }
{
    name == dwarf::DW_AT_name
}

/// `DW_AT_abstract_origin` or `DW_AT_specification`.
pub fn is_reference(name: u64) -> bool
    ensures { result ≡ is_reference name }
{
    name == dwarf::DW_AT_abstract_origin || name == dwarf::DW_AT_specification
}

/// The first of two names that is known.
pub fn or_else(first: Option<StrPlace>, second: Option<StrPlace>) -> Option<StrPlace>
    ensures { result ≡ or_else first second }
{
    match first {
        Some(_) => first,
        None => second,
    }
}

fn visit_end(name: Option<StrPlace>, link: Option<AttrValue>) -> Visited
    ensures { result ≡ visit_end name link }
{
    match (name, link) {
        (Some(name), _) => Visited::Named(name),
        (None, Some(value)) => Visited::Leads(value),
        (None, None) => Visited::Nameless,
    }
}

fn linkage_of(
    room: &mut Room,
    unit: &OpenUnit<'_, '_>,
    name: u64,
    value: AttrValue,
) -> std::result::Result<Option<StrPlace>, AllocError>
    ensures { IfOk result (λ l. l ≡ linkage_of (open_view unit.now) name value) }
{
    if is_linkage_name(name) {
        return unit.string(room, value);
    }
    Ok(None)
}

/// The name behind a `DW_AT_name` that was met last, if one was: its text is looked for only where no linkage name
/// replaces it, as most entries with a name have both.
fn told_name(
    room: &mut Room,
    unit: &OpenUnit<'_, '_>,
    last: Option<AttrValue>,
    old: Option<StrPlace>,
) -> std::result::Result<Option<StrPlace>, AllocError>
    ensures { IfOk result (λ n. n ≡ told_name (open_view unit.now) last old) }
{
    let Some(value) = last else {
        return Ok(old);
    };
    let name = unit.string(room, value)?;
    Ok(or_else(name, old))
}

fn link_behind(name: u64, value: AttrValue, old: Option<AttrValue>) -> Option<AttrValue>
    ensures { result ≡ link_behind name value old }
{
    if is_reference(name) { Some(value) } else { old }
}

fn visit_attributes(
    room: &mut Room,
    unit: &OpenUnit<'_, '_>,
    entries: &mut Entries<'_, '_>,
) -> Result<Visited>
    requires { entries.old.source ≡ source_in (open_view unit.now) }
    ensures { Gives (λ v. v) result (or_invalid
        (visit_from (open_view unit.now) entries.old.pending None None entries.old.place)) }
{
    let mut name = None;
    let mut last = None;
    let mut link = None;
    loop {
        let before = entries.place();
        let (attribute, value) = match entries.next_wanted() {
            Some(Some(found)) => found,
            Some(None) => {
                room.take(walk_words(before, entries.place()))?;
                let name = told_name(room, unit, last, name)?;
                return Ok(visit_end(name, link));
            }
            None => {
                room.take(walk_words(before, unit.header.end))?;
                return Err(no_attribute());
            }
        };
        room.take(walk_words(before, entries.place()))?;
        match linkage_of(room, unit, attribute, value)? {
            Some(linkage) => return Ok(Visited::Named(linkage)),
            None => {
                link = link_behind(attribute, value, link);
                if is_name(attribute) {
                    name = told_name(room, unit, last, name)?;
                    last = Some(value);
                }
            }
        }
    }
}

/// What the entry at a place of a unit tells of a name: its first linkage name, else its last name, else where its last
/// reference leads. InvalidDwarf exactly where no entry of the unit stands there, or one of its attributes up to its
/// linkage name has no value. The entry, each of its attributes, the bytes that they take and what was searched for the
/// ends of its names take of the room.
#[tactic(auto, unfolding(crate::specs::Naming::visited, blz_info::specs::Walks::opened))]
pub fn visit(room: &mut Room, unit: &OpenUnit<'_, '_>, place: usize) -> Result<Visited>
    requires { CanBeOpened unit.now }
    ensures { Gives (λ v. v) result (or_invalid (visited (open_view unit.now) place)) }
{
    room.take(1)?;
    if place < unit.header.entries || place > unit.header.end {
        return Err(invalid("a reference leads past the entries of a unit"));
    }
    let Some(mut entries) = Entries::opened(&unit.sections, &unit.header, unit.abbreviations, place)
    else {
        return Err(invalid("a reference leads to no entry"));
    };
    visit_attributes(room, unit, &mut entries)
}
