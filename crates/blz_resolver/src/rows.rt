//! The lines of the units of a bundle.
ghost use Rattle.std.specs.Prelude.{◌≡◌, ◌<◌, true, IfOk, IfErr, is_some, slice_get};
ghost use Rattle.std.specs.Option.{option_map};
ghost use Rattle.blz_error.specs.declared.kind.ErrorKind.TheVariants.{OutOfMemory};
ghost use Rattle.blz_model.specs.Part.{Gives, Exactly};
ghost use Rattle.blz_bundle.specs.BundleViews.{bundle_view};
ghost use Rattle.blz_resolver.specs.Resolver.{has_debug, lines_in, rows_filled, units_in, HasBookIf, Stays, UnitsStayIf};
ghost use Rattle.blz_resolver.specs.RowsViews.{rows_view};
ghost use Rattle.blz_resolver.specs.UnitRowsRead.{rows_of, rows_with, unit_count_of};

use crate::ElfResolver;
use crate::debug::debug_info::DebugInfo;
use blz_bundle::Bundle;
use blz_bytes::{DirPath, Orders};
use blz_entry::Texts;
use blz_error::Result;
use blz_line::{LineSequence, Lines};
use std::alloc::Global;

/// The lines of a unit: its sequences and its files.
#[derive(Clone, Copy)]
pub struct UnitRows<'r, 'b> {
    lines: &'r Lines,
    texts: Texts<'b>,
}

impl<'r, 'b> UnitRows<'r, 'b> {
    // Some lines with the texts that they name.
    pub(crate) fn with_texts(lines: Option<&'r Lines>, texts: Texts<'b>) -> Option<UnitRows<'r, 'b>>
        ensures { option_map rows_view result
            ≡ option_map (λ l. rows_with texts.entry l.now.table) lines.entry }
    {
        match lines {
            Some(lines) => Some(UnitRows { lines, texts }),
            None => None,
        }
    }

    /// The sequences, in the order of the program (DWARF 5 section 6.2).
    pub fn sequences(&self) -> &'r [LineSequence]
        ensures { result.now ≡ (rows_view self.now).sequences }
    {
        self.lines.sequences()
    }

    /// The directory and the name of the file of a number, counted from 0; None exactly where there is no such file.
    pub fn file(&self, index: u64) -> Option<(DirPath<'b>, &'b [u8])>
        ensures { option_map (λ file. (file.0, file.1.now)) result
            ≡ slice_get (rows_view self.now).files index }
    {
        self.lines.file(&self.texts, index)
    }
}

fn count_units<'b>(bundle: &Bundle<'b>, debug: &Option<DebugInfo<'b>>) -> usize
    requires { HasBookIf (bundle_view bundle.now) debug.now }
    ensures { result ≡ unit_count_of (bundle_view bundle.now) (is_some debug.now) }
{
    match debug {
        Some(info) => info.unit_count(bundle),
        None => 0,
    }
}

// Reads the lines of a unit, where there is debug information.
fn fill_rows<'b, O: Orders>(
    alloc: Global,
    orders: &mut O,
    bundle: &Bundle<'b>,
    debug: &mut Option<DebugInfo<'b>>,
    unit: usize,
) -> Result<()>
    requires book { HasBookIf (bundle_view bundle.now) debug.old }
    requires there { unit < unit_count_of (bundle_view bundle.now) (is_some debug.old) }
    ensures book { HasBookIf (bundle_view bundle.now) debug.new }
    ensures stay { UnitsStayIf (units_in debug.old) (units_in debug.new) }
    ensures filled { IfOk result (λ _. lines_in (units_in debug.new) unit ≡ true) }
    ensures want { IfErr result (λ e. e.kind ≡ OutOfMemory) }
{
    match debug {
        Some(info) => info.fill_rows(alloc, orders, bundle, unit),
        None => Ok(()),
    }
}

// The lines of a unit that were read.
fn filled_rows<'r, 'b>(
    bundle: &Bundle<'b>,
    debug: &'r Option<DebugInfo<'b>>,
    unit: usize,
) -> Result<Option<UnitRows<'r, 'b>>>
    requires book { HasBookIf (bundle_view bundle.now) debug.now }
    requires filled { lines_in (units_in debug.now) unit ≡ true }
    ensures { Exactly (λ o. option_map rows_view o) result
        (rows_of (bundle_view bundle.now) (is_some debug.now) unit) }
{
    match debug {
        Some(info) => info.rows(bundle, unit),
        None => Ok(None),
    }
}

impl<'b> ElfResolver<'b> {
    /// How many units are kept; 0 without debug information.
    pub fn unit_count(&self) -> usize
        ensures { result ≡ unit_count_of self.now.images (has_debug self.now) }
    {
        count_units(&self.bundle, &self.debug)
    }

    /// Reads the lines of a unit where they are not kept, as far as they can be read; `filled_unit_rows` then tells them.
    /// Only OutOfMemory is refused. What was filled before stays.
    pub fn fill_unit_rows<O: Orders>(
        &mut self,
        alloc: Global,
        orders: &mut O,
        unit: usize,
    ) -> Result<()>
        requires { unit < unit_count_of self.old.images (has_debug self.old) }
        ensures filled { IfOk result (λ _. rows_filled self.new unit ≡ true) }
        ensures refused { IfErr result (λ e. e.kind ≡ OutOfMemory) }
        ensures stays { Stays self.old self.new }
    {
        fill_rows(alloc, orders, &self.bundle, &mut self.debug, unit)
    }

    /// The lines of a unit that `fill_unit_rows` read; None exactly where it has no line program (DWARF 5 section 6.2).
    /// InvalidDwarf exactly where they have no value; takes no memory.
    pub fn filled_unit_rows(&self, unit: usize) -> Result<Option<UnitRows<'_, 'b>>>
        requires { rows_filled self.now unit ≡ true }
        ensures { Exactly (λ o. option_map rows_view o) result
            (rows_of self.now.images (has_debug self.now) unit) }
    {
        filled_rows(&self.bundle, &self.debug, unit)
    }

    /// The lines of a unit; None exactly where it has no line program. InvalidDwarf exactly where they have no value. What
    /// the resolver is afterwards, `fill_unit_rows` and `filled_unit_rows` tell, of which this call is made.
    pub fn unit_rows<O: Orders>(
        &mut self,
        alloc: Global,
        orders: &mut O,
        unit: usize,
    ) -> Result<Option<UnitRows<'_, 'b>>>
        requires { unit < unit_count_of self.old.images (has_debug self.old) }
        ensures { Gives (λ o. option_map rows_view o) result
            (rows_of self.old.images (has_debug self.old) unit) }
    {
        self.fill_unit_rows(alloc, orders, unit)?;
        self.filled_unit_rows(unit)
    }
}
