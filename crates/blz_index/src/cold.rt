//! Caches of units of which nothing is kept yet.
ghost use Rattle.std.specs.Prelude.{◌≡◌, None, length, IfOk};
ghost use Rattle.blz_index.specs.Cold.{NothingKept, AreEmpty, IsCold};
ghost use Rattle.blz_units.specs.Sharing.{AreShared};
ghost use Rattle.blz_info.specs.FileSections.{FileSections};

use blz_bytes::Room;
use blz_model::Cache;
use blz_units::built_unit::BuiltUnit;
use blz_units::built_units::{BuiltUnits, SideUnits};
use blz_units::caches::{Caches, UnitCaches};
use blz_units::shared::shared_package::SharedPackage;
use blz_units::shared::shared_parts::SharedParts;
use std::alloc::{AllocError, Global};

/// The words that the caches of a unit take, before anything is read.
const UNIT: u64 = 72;

/// The words that a unit of a supplementary file takes, before it is built.
const UNBUILT: u64 = 48;

fn empty_units(
    alloc: Global,
    room: &mut Room,
    count: usize,
) -> Result<Vec<Cache<BuiltUnit>>, AllocError>
    ensures count { IfOk result (λ v. length v.items ≡ count) }
    ensures empty { IfOk result (λ v. NothingKept v.items) }
{
    let mut units = Vec::new(alloc);
    for _ in 0..count {
        room.take(UNBUILT)?;
        units.push(Cache::Empty)?;
    }
    Ok(units)
}

fn empty_caches(alloc: Global, room: &mut Room, count: usize) -> Result<Vec<UnitCaches>, AllocError>
    ensures count { IfOk result (λ v. length v.items ≡ count) }
    ensures empty { IfOk result (λ v. AreEmpty v.items) }
{
    let mut units = Vec::new(alloc);
    for _ in 0..count {
        room.take(UNIT)?;
        units.push(UnitCaches {
            root: Cache::Empty,
            functions: Cache::Empty,
            lines: Cache::Empty,
            calls: Vec::new(alloc),
        })?;
    }
    Ok(units)
}

/// Units of the supplementary file, of which nothing is built.
fn empty_sups(alloc: Global, room: &mut Room, count: usize) -> Result<SideUnits, AllocError>
    ensures count { IfOk result (λ b. length b.units.items ≡ count) }
    ensures empty { IfOk result (λ b. NothingKept b.units.items) }
    ensures shared { IfOk result (λ b. (s : FileSections) → AreShared s b.shared) }
    ensures rows { IfOk result (λ b. b.packed.rows ≡ None) }
{
    let units = empty_units(alloc, room, count)?;
    Ok(SideUnits {
        units,
        shared: SharedParts::new(alloc),
        packed: SharedPackage::new(),
    })
}

/// For so many kept units, some of which are built, and units of the supplementary file, with the room that is left.
pub fn cold_caches(
    alloc: Global,
    room: Room,
    kept: SideUnits,
    count: usize,
    sups: usize,
) -> Result<Caches, AllocError>
    ensures { IfOk result (IsCold kept count sups) }
{
    let mut room = room;
    let sups = empty_sups(alloc, &mut room, sups)?;
    let units = empty_caches(alloc, &mut room, count)?;
    let built = BuiltUnits { kept, sups };
    Ok(Caches { built, units, room })
}
