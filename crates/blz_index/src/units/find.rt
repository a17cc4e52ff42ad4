//! Units by the offsets of references, and by addresses.
ghost use Rattle.std.specs.Prelude.{◌≡◌};
ghost use Rattle.blz_model.specs.Part.{Exactly};
ghost use Rattle.blz_info.specs.Marks.{or_invalid};
ghost use Rattle.blz_units.specs.Announced.{announced_at};
ghost use Rattle.blz_functions.specs.References.{unit_at};
ghost use Rattle.blz_index.specs.UnitsWarm.{announced_ordered, units_table};

use crate::units::Units;
use blz_error::Result;
use blz_units::announced::units_at::UnitsAt;

impl Units {
    /// The number of the unit that an offset of `.debug_info` leads into, and the offset's distance from its start.
    /// InvalidDwarf exactly where no unit begins below the offset, one begins at it, or it does not lie among the entries
    /// of the last that begins below it.
    pub fn find_unit(&self, offset: u64) -> Result<(usize, usize)>
        ensures { Exactly (λ p. p) result
            (or_invalid (unit_at (units_table self.now).kept offset)) }
    {
        self.table.find_unit(offset)
    }

    /// The same among the units of the supplementary file, but for its type units.
    pub fn find_sup_unit(&self, offset: u64) -> Result<(usize, usize)>
        ensures { Exactly (λ p. p) result
            (or_invalid (unit_at (units_table self.now).sups offset)) }
    {
        self.table.find_sup_unit(offset)
    }

    /// The units that announce an address: the greatest begin first, then the earlier place.
    pub fn find_units(&self, addr: u64) -> UnitsAt<'_>
        ensures { result ≡ announced_at (units_table self.now) (announced_ordered self.now) addr }
    {
        self.table.find_units(addr)
    }
}
