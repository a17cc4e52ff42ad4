//! Units that are built, where they are kept.
ghost use Rattle.std.specs.Prelude.{◌≡◌, true, List, [], None, Option, IfOk};
ghost use Rattle.std.specs.List.{slice_get, slice_set};
ghost use Rattle.blz_model.specs.Part.{Exactly};
ghost use Rattle.blz_model.specs.declared.cache.Cache.TheVariants.{Empty};
ghost use Rattle.blz_info.specs.Marks.{or_invalid};
ghost use Rattle.blz_units.specs.BuiltUnits.{files_view, IsReadable};
ghost use Rattle.blz_units.specs.KeptParts.{or_empty, is_missing, unit_of, IsFilled, AllBuilt};
ghost use Rattle.blz_functions.specs.Opened.{open_view, CanBeOpened};
ghost use Rattle.blz_units.specs.Sharing.{AreShared};
ghost use Rattle.blz_info.specs.FileSections.{FileSections};

use crate::built_unit::BuiltUnit;
use crate::dwarf::Dwarf;
use crate::shared::shared_package::SharedPackage;
use crate::shared::shared_parts::SharedParts;
use crate::unit_list::UnitList;
use blz_entry::invalid;
use blz_error::{Error, Result, Str};
use blz_functions::OpenUnit;
use blz_model::Cache;
use std::alloc::Global;
use std::mem;

/// Which file a unit stands in.
#[derive(Clone, Copy)]
pub enum Side {
    /// The file itself; the package may have what its functions are read from.
    File,
    /// The supplementary file.
    Sup,
}

/// The units of a file that were built, and what they share.
pub struct SideUnits {
    pub units: Vec<Cache<BuiltUnit>>,
    pub shared: SharedParts,
    /// What was read of the index of the package, from whose units those of the file itself are read.
    pub packed: SharedPackage,
}

// Written out, so that letting go of one is a call, which is proved once, and not a walk through it at each place.
impl Drop for SideUnits {
    fn drop(self) {
        let SideUnits {
            units: _,
            shared: _,
            packed: _,
        } = self;
    }
}

/// The units that were built: the kept ones of the file itself, and those of the supplementary file.
#[derive(Drop)]
pub struct BuiltUnits {
    pub kept: SideUnits,
    pub sups: SideUnits,
}

impl SideUnits {
    /// No units; takes no memory.
    pub fn new(alloc: Global) -> SideUnits
        ensures units { result.units.items ≡ [] }
        ensures shared { (s : FileSections) → AreShared s result.shared }
        ensures rows { result.packed.rows ≡ None }
    {
        SideUnits {
            units: Vec::new(alloc),
            shared: SharedParts::new(alloc),
            packed: SharedPackage::new(),
        }
    }
}

/// Whether nothing is kept at a number of a list.
pub fn is_missing<T>(caches: &[Cache<T>], number: usize) -> bool
    ensures { result ≡ is_missing (slice_get caches.now number) }
{
    match caches.get(number) {
        Some(Cache::Empty) => true,
        _ => false,
    }
}

/// Takes out what is kept at a number, and leaves nothing there.
pub fn take(caches: &mut Vec<Cache<BuiltUnit>>, number: usize) -> Cache<BuiltUnit>
    ensures taken { result ≡ or_empty (slice_get caches.old.items number) }
    ensures left { caches.new.items ≡ slice_set caches.old.items number Empty }
{
    if number >= caches.len() {
        return Cache::Empty;
    }
    mem::replace(&mut caches[number], Cache::Empty)
}

/// Puts a unit, or its mark, at a number.
pub fn put(caches: &mut Vec<Cache<BuiltUnit>>, number: usize, cache: Cache<BuiltUnit>)
    ensures { caches.new.items ≡ slice_set caches.old.items number cache }
{
    if number < caches.len() {
        caches[number] = cache;
    }
}

/// A unit that is kept, with the sections that it was built from. InvalidDwarf exactly where it cannot be built.
pub fn look<'u, 'b>(
    dwarf: &'u Dwarf<'_, 'b>,
    side: Side,
    units: &UnitList,
    caches: &'u [Cache<BuiltUnit>],
    number: usize,
) -> Result<OpenUnit<'u, 'b>>
    requires readable { IsReadable dwarf.now }
    requires fits { AllBuilt (files_view dwarf.now) side units.now caches.now }
    requires filled { IsFilled (slice_get caches.now number) }
    ensures value { Exactly open_view result
        (or_invalid (unit_of (files_view dwarf.now) side units.now number)) }
    ensures opened { IfOk result CanBeOpened }
{
    match caches.get(number) {
        Some(Cache::Value(unit)) => Ok(unit.open(dwarf)),
        Some(Cache::Mark(kind)) => Err(Error::new(*kind, Str::fixed("unit"))),
        Some(Cache::Empty) => unreachable!(),
        None => Err(invalid("a unit has no such number")),
    }
}
