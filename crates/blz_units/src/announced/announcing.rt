//! What a unit announces.
ghost use Rattle.std.specs.Prelude.{◌≡◌, ◌≢◌, ◌++◌, Option, Some, is_some, IfOk, IfSome, MatchResult, OnOk, option_map};
ghost use Rattle.blz_error.specs.declared.kind.ErrorKind.TheVariants.{OutOfMemory};
ghost use Rattle.blz_model.specs.Part.{Good, Gives};
ghost use Rattle.blz_info.specs.Marks.{or_invalid};
ghost use Rattle.blz_line.specs.Lookups.{span_of, spans_of};
ghost use Rattle.blz_line.specs.UnitLines.{OrderedLines};
ghost use Rattle.blz_units.specs.BuiltUnits.{built, built_view, files_view, BuiltFits, IsReadable};
ghost use Rattle.blz_units.specs.KeptParts.{IsPartOf};
ghost use Rattle.blz_functions.specs.Opened.{open_view};
ghost use Rattle.blz_units.specs.Sharing.{AreShared};
ghost use Rattle.blz_units.specs.declared.dwarf.Origin.TheVariants.{Main};
ghost use Rattle.blz_units.specs.UnitLists.{IsInPlace};
ghost use Rattle.blz_units.specs.UnitTables.{added_to, announces, by_root, is_type, is_partial, lines_in, root_behind, sequences_of};

use crate::announced::address_sets::AddressSets;
use crate::built_unit::{BuiltUnit, may_be_split};
use crate::dwarf::{Dwarf, Origin};
use crate::shared::shared_parts::SharedParts;
use crate::words::RANGE_WORDS;
use blz_bytes::{AsTheyStand, Room};
use blz_entry::{Span, UnitHeader, UnitKind};
use blz_error::{Error, ErrorKind, Result};
use blz_functions::OpenUnit;
use blz_line::{LineSequence, Lines};
use blz_model::Cache;
use std::alloc::{AllocError, Global};

/// Whether a unit is a type unit.
pub fn is_type(kind: UnitKind) -> bool
    ensures { result ≡ is_type kind }
{
    match kind {
        UnitKind::TypeUnit | UnitKind::SplitType => true,
        UnitKind::Compile | UnitKind::Partial | UnitKind::Skeleton | UnitKind::SplitCompile => {
            false
        }
    }
}

fn is_partial(kind: UnitKind) -> bool
    ensures { result ≡ is_partial kind }
{
    match kind {
        UnitKind::Partial => true,
        UnitKind::Compile
        | UnitKind::TypeUnit
        | UnitKind::Skeleton
        | UnitKind::SplitCompile
        | UnitKind::SplitType => false,
    }
}

/// Passes over a fault of the data, and gives want of memory on.
fn unless_memory(fault: Error) -> Result<()>
    ensures { MatchResult result (λ _. fault.kind ≢ OutOfMemory) (λ e. e.kind ≡ OutOfMemory) }
{
    match fault.kind() {
        ErrorKind::OutOfMemory => Err(fault),
        _ => Ok(()),
    }
}

fn span_of(sequence: &LineSequence) -> Span
    ensures { result ≡ span_of sequence.now }
{
    Span {
        begin: sequence.start,
        end: sequence.end,
    }
}

/// Appends what sequences cover.
fn append_spans(
    room: &mut Room,
    sequences: &[LineSequence],
    out: &mut Vec<Span>,
) -> std::result::Result<(), AllocError>
    ensures { OnOk result (out.new.items ≡ out.old.items ++ spans_of sequences.now) }
{
    for sequence in sequences {
        room.take(RANGE_WORDS)?;
        out.push(span_of(sequence))?;
    }
    Ok(())
}

/// The lines of a unit.
fn lines_of(
    alloc: Global,
    room: &mut Room,
    shared: &mut SharedParts,
    unit: &OpenUnit<'_, '_>,
) -> Result<Option<Lines>>
    requires { AreShared (open_view unit.now).sections shared.old }
    ensures value { Gives (λ lines. option_map (λ (l : OrderedLines). l.table) lines) result
        (or_invalid (lines_in (open_view unit.now))) }
    ensures shared { AreShared (open_view unit.now).sections shared.new }
{
    shared.lines(
        alloc,
        room,
        &mut AsTheyStand,
        &unit.sections,
        &unit.header,
        &unit.root,
    )
}

/// Appends what the sequences of the lines of a unit cover, where it has lines that have a value.
fn append_lines(
    alloc: Global,
    room: &mut Room,
    shared: &mut SharedParts,
    unit: &OpenUnit<'_, '_>,
    out: &mut Vec<Span>,
) -> Result<()>
    requires { AreShared (open_view unit.now).sections shared.old }
    ensures value { MatchResult result
        (λ _. out.new.items ≡ out.old.items ++ sequences_of (lines_in (open_view unit.now)))
        (λ e. e.kind ≡ OutOfMemory) }
    ensures shared { AreShared (open_view unit.now).sections shared.new }
{
    match lines_of(alloc, room, shared, unit) {
        Ok(Some(lines)) => {
            append_spans(room, lines.sequences(), out)?;
            Ok(())
        }
        Ok(None) => Ok(()),
        Err(fault) => unless_memory(fault),
    }
}

/// Appends the ranges of the root of a unit, and where there are none what the sequences of its lines cover.
fn append_root(
    alloc: Global,
    room: &mut Room,
    shared: &mut SharedParts,
    unit: &OpenUnit<'_, '_>,
    out: &mut Vec<Span>,
) -> Result<()>
    requires { AreShared (open_view unit.now).sections shared.old }
    ensures value { Gives (λ _. out.new.items) result
        (or_invalid (root_behind (open_view unit.now) out.old.items)) }
    ensures shared { AreShared (open_view unit.now).sections shared.new }
{
    if unit.append_ranges(room, &unit.root.ranges, out)? {
        return Ok(());
    }
    append_lines(alloc, room, shared, unit, out)
}

/// The same of a unit of the main file that is built.
fn append_unit(
    alloc: Global,
    room: &mut Room,
    dwarf: &Dwarf<'_, '_>,
    shared: &mut SharedParts,
    unit: &BuiltUnit,
    out: &mut Vec<Span>,
) -> Result<()>
    requires readable { IsReadable dwarf.now }
    requires fits { BuiltFits (files_view dwarf.now) unit.now }
    requires main { unit.now.origin ≡ Main }
    requires shared { AreShared (files_view dwarf.now).main shared.old }
    ensures value { Gives (λ _. out.new.items) result
        (or_invalid (root_behind (built_view (files_view dwarf.now) unit.now) out.old.items)) }
    ensures shared { AreShared (files_view dwarf.now).main shared.new }
{
    append_root(alloc, room, shared, &unit.open(dwarf), out)
}

/// What is kept of a unit that was built: nothing where its functions may stand in a package.
fn kept_of(dwarf: &Dwarf<'_, '_>, header: &UnitHeader, unit: BuiltUnit) -> Cache<BuiltUnit>
    requires fits { BuiltFits (files_view dwarf.now) unit }
    requires is { or_invalid (built (files_view dwarf.now).main header.now)
        ≡ Good (built_view (files_view dwarf.now) unit) }
    ensures { IsPartOf (files_view dwarf.now) header.now result }
{
    if may_be_split(dwarf, header) {
        return Cache::Empty;
    }
    Cache::Value(unit)
}

/// Appends what a unit that no set names announces, and gives what is kept of it; None where it is not kept, as it cannot
/// be built.
fn append_built(
    alloc: Global,
    room: &mut Room,
    dwarf: &Dwarf<'_, '_>,
    shared: &mut SharedParts,
    header: &UnitHeader,
    out: &mut Vec<Span>,
) -> Result<Option<Cache<BuiltUnit>>>
    requires readable { IsReadable dwarf.now }
    requires in_place { IsInPlace header.now }
    requires shared { AreShared (files_view dwarf.now).main shared.old }
    ensures value { Gives (λ kept. (out.new.items, is_some kept)) result (or_invalid
        (added_to out.old.items (by_root (built (files_view dwarf.now).main header.now)))) }
    ensures part { IfOk result (λ kept. IfSome kept (IsPartOf (files_view dwarf.now) header.now)) }
    ensures shared { AreShared (files_view dwarf.now).main shared.new }
{
    let unit = match BuiltUnit::of_file(alloc, room, dwarf, shared, Origin::Main, header) {
        Ok(unit) => unit,
        Err(fault) => {
            unless_memory(fault)?;
            return Ok(None);
        }
    };
    append_unit(alloc, room, dwarf, shared, &unit, out)?;
    Ok(Some(kept_of(dwarf, header, unit)))
}

/// Appends what a unit announces, and gives what is kept of it: the unit itself where it had to be built; None where the
/// unit is not kept. InvalidDwarf exactly where the list of ranges of its root is needed and has no value.
#[tactic(auto, unfolding(crate::specs::UnitTables::announces))]
pub fn append_announced(
    alloc: Global,
    room: &mut Room,
    dwarf: &Dwarf<'_, '_>,
    sets: &AddressSets,
    shared: &mut SharedParts,
    header: &UnitHeader,
    out: &mut Vec<Span>,
) -> Result<Option<Cache<BuiltUnit>>>
    requires readable { IsReadable dwarf.now }
    requires in_place { IsInPlace header.now }
    requires shared { AreShared (files_view dwarf.now).main shared.old }
    ensures value { Gives (λ kept. (out.new.items, is_some kept)) result (or_invalid
        (added_to out.old.items (announces (files_view dwarf.now).main sets.now header.now))) }
    ensures part { IfOk result (λ kept. IfSome kept (IsPartOf (files_view dwarf.now) header.now)) }
    ensures shared { AreShared (files_view dwarf.now).main shared.new }
{
    if is_type(header.kind) {
        return Ok(None);
    }
    if is_partial(header.kind) {
        return Ok(Some(Cache::Empty));
    }
    let before = out.len();
    sets.append_ranges(room, &dwarf.main.aranges, header.start, out)?;
    if out.len() > before {
        return Ok(Some(Cache::Empty));
    }
    append_built(alloc, room, dwarf, shared, header, out)
}
