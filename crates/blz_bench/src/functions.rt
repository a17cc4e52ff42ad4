//! The functions of all units of a file.
ghost use Rattle.std.specs.Prelude.{◌≡◌, false, None};
ghost use Rattle.std.specs.FinMap as map;
ghost use Rattle.blz_units.specs.BuiltUnits.{AreWhole, IsReadable};

use crate::clocked::now;
use crate::debug_sections::{alone, sections_of, texts_of};
use blz_bytes::ByStdSort;
use blz_entry::Sections;
use blz_error::Result;
use blz_index::{Dwarf, Units};
use blz_relocations::RelocationMap;
use std::alloc::Global;
use std::time::CpuClock;

/// How many functions the units of a file have, and the processor time of reading them in nanoseconds.
#[derive(Clone, Copy)]
pub struct FunctionCounts {
    pub units: u64,
    pub functions: u64,
    /// The time of the headers and the ranges that units announce.
    pub parsing: u64,
    /// The time of all functions with an index of their ranges.
    pub reading: u64,
}

// The sections of a file that has no companions.
fn dwarf_of<'s, 'b>(main: Sections<'s, 'b>, none: &'s RelocationMap) -> Dwarf<'s, 'b>
    requires whole { AreWhole main }
    requires not_sup { main.sup ≡ false }
    requires alone { main.sup_strings ≡ None }
    requires none { none.now ≡ map.empty }
    ensures { IsReadable result }
{
    Dwarf {
        main,
        texts: texts_of(&main),
        package: None,
        none,
        sup: None,
    }
}

/// Reads the functions of all units.
pub fn count_functions<C: CpuClock>(
    alloc: Global,
    clock: &C,
    image: &[u8],
) -> Result<FunctionCounts> {
    let none = RelocationMap::new(alloc);
    let main = alone(sections_of(alloc, image, &none)?);
    let dwarf = dwarf_of(main, &none);
    let begun = now(clock);
    let mut units = Units::parse(alloc, &mut ByStdSort, &dwarf)?;
    let parsed = now(clock);
    let mut functions: u64 = 0;
    for unit in 0..units.len() {
        units.fill_functions(alloc, &mut ByStdSort, &dwarf, unit)?;
        if let Some(list) = units.functions(unit) {
            functions = functions.saturating_add(list.len() as u64);
        }
    }
    Ok(FunctionCounts {
        units: units.len() as u64,
        functions,
        parsing: parsed.saturating_sub(begun),
        reading: now(clock).saturating_sub(parsed),
    })
}
