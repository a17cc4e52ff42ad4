//! The headers of units in the order in which the units stand.
ghost use Rattle.std.specs.Prelude.{◌≡◌, ◌<◌, ◌++◌, ◌∷◌, [], List, length, Option, IfSome, MatchResult, Some};
ghost use Rattle.std.specs.List.{slice_get};
ghost use Rattle.blz_info.specs.declared.units.UnitHeader.{UnitHeader};
ghost use Rattle.blz_functions.specs.References.{distance_in, unit_at};
ghost use Rattle.blz_units.specs.UnitLists.{AreUnits, EndBefore, IsInPlace};
ghost use Rattle.blz_units.specs.UnitTables.{no_types};

use crate::announced::announcing::is_type;
use blz_entry::UnitHeader;
use std::alloc::{AllocError, Global};
use std::marker::Model;

/// The headers of units, each of which begins at or behind the end of the one before it.
#[derive(Drop)]
pub struct UnitList {
    headers: Vec<UnitHeader>,
}

impl Model for UnitList {
    ghost Value = { List UnitHeader };

    ghost view = { λ l. l.headers.items };

    ghost invariant = { λ l. AreUnits l.headers.items };
}

/// The number of a unit, and the distance of an offset from its start, where it lies among the entries.
fn distance_in(offset: usize, number: usize, header: &UnitHeader) -> Option<(usize, usize)>
    requires { IsInPlace header.now }
    ensures { result ≡ distance_in offset (Some (number, header.now)) }
{
    if header.entries <= offset && offset < header.end {
        Some((number, offset - header.start))
    } else {
        None
    }
}

/// The number of the unit that an offset leads into, and the offset's distance from its start.
fn find_in(headers: &[UnitHeader], offset: u64) -> Option<(usize, usize)>
    requires { AreUnits headers.now }
    ensures { result ≡ unit_at headers.now offset }
{
    let count = headers.partition_point(|header| header.start as u64 <= offset);
    if count == 0 {
        return None;
    }
    distance_in(offset as usize, count - 1, &headers[count - 1])
}

impl UnitList {
    /// No headers; takes no memory.
    pub fn new(alloc: Global) -> UnitList
        ensures { result ≡ [] }
    {
        UnitList {
            headers: Vec::new(alloc),
        }
    }

    /// How many they are.
    pub fn len(&self) -> usize
        ensures { result ≡ length self.now }
    {
        self.headers.len()
    }

    /// The header of a number.
    pub fn get(&self, number: usize) -> Option<UnitHeader>
        ensures header { result ≡ slice_get self.now number }
        ensures in_place { IfSome result IsInPlace }
    {
        self.headers.get(number).copied()
    }

    /// Puts a header behind the others.
    pub fn push(&mut self, header: UnitHeader) -> Result<(), AllocError>
        requires in_place { IsInPlace header }
        requires behind { EndBefore self.old header.start }
        ensures { MatchResult result (λ _. self.new ≡ self.old ++ header ∷ [])
            (λ _. self.new ≡ self.old) }
    {
        self.headers.push(header)?;
        Ok(())
    }

    /// The same, where it is no type unit.
    pub fn push_but_types(&mut self, header: UnitHeader) -> Result<(), AllocError>
        requires in_place { IsInPlace header }
        requires behind { EndBefore self.old header.start }
        ensures { MatchResult result (λ _. self.new ≡ self.old ++ no_types (header ∷ []))
            (λ _. self.new ≡ self.old) }
    {
        if is_type(header.kind) {
            return Ok(());
        }
        self.push(header)
    }

    /// The number of the last unit that does not begin above an offset, and the offset's distance from its start; None
    /// exactly where there is no such unit, or the offset does not lie among its entries.
    pub fn find(&self, offset: u64) -> Option<(usize, usize)>
        ensures { result ≡ unit_at self.now offset }
    {
        find_in(self.headers.as_slice(), offset)
    }
}
