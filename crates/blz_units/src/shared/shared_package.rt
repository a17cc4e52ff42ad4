//! The rows of the split units of a package, sought by their ids.
ghost use Rattle.std.specs.Prelude.{◌≡◌, None, IfOk};
ghost use Rattle.blz_model.specs.Part.{Gives};
ghost use Rattle.blz_info.specs.Marks.{or_invalid};
ghost use Rattle.blz_split.specs.PackageParts.{package_view, split_unit, IfPiecesFit};
ghost use Rattle.blz_units.specs.SharedPackage.{AreRows};

use blz_error::Result;
use blz_split::{IdRows, Package, SplitUnit};
use std::alloc::{AllocError, Global};

/// So many ids are sought one by one: to read the rows of all takes about as long.
const FEW_SEARCHES: u32 = 64;

/// What was read of the index of a package.
#[derive(Drop)]
pub struct SharedPackage {
    /// The rows of its ids, once more than a few were sought.
    pub rows: Option<IdRows>,
    pub searches: u32,
}

impl SharedPackage {
    /// Nothing; takes no memory.
    pub fn new() -> SharedPackage
        ensures { result.rows ≡ None }
    {
        SharedPackage {
            rows: None,
            searches: 0,
        }
    }

    /// Reads the rows of all ids before the first search that is not one of a few.
    fn read_rows(
        &mut self,
        alloc: Global,
        parts: &Package<'_>,
    ) -> std::result::Result<(), AllocError>
        requires { AreRows (package_view parts.now) self.old.rows }
        ensures { AreRows (package_view parts.now) self.new.rows }
    {
        if self.searches < FEW_SEARCHES {
            self.searches += 1;
        } else if self.rows.is_none() {
            self.rows = Some(parts.rows(alloc)?);
        }
        Ok(())
    }

    /// The pieces of the split unit of an id, as `Package::find_cu` gives them.
    pub fn find_cu(
        &mut self,
        alloc: Global,
        parts: &Package<'_>,
        id: u64,
    ) -> Result<Option<SplitUnit>>
        requires { AreRows (package_view parts.now) self.old.rows }
        ensures value { Gives (λ p. p) result
            (or_invalid (split_unit (package_view parts.now) id)) }
        ensures fit { IfOk result (IfPiecesFit (package_view parts.now)) }
        ensures rows { AreRows (package_view parts.now) self.new.rows }
    {
        self.read_rows(alloc, parts)?;
        match &self.rows {
            Some(rows) => parts.find_by(rows, id),
            None => parts.find_cu(id),
        }
    }
}
