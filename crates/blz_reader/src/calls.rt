//! Calls of a function, read where they are not kept.
ghost use Rattle.std.specs.Prelude.{IfOk};
ghost use Rattle.blz_reader.specs.Filling.{CanBeFilled, Fills, HasInlined};
ghost use Rattle.blz_reader.specs.Listing.{ListsCalls};

use crate::reader::Reader;
use blz_bytes::Orders;
use blz_error::Result;
use blz_units::caches::Caches;
use blz_units::look;

impl<'r, 's, 'b> Reader<'r, 's, 'b> {
    /// Reads the calls of a function of a unit where they are not kept; refused where they have no value.
    pub fn list_calls<O: Orders>(
        &self,
        orders: &mut O,
        caches: &mut Caches,
        number: usize,
        function: usize,
    ) -> Result<()>
        requires fillable { CanBeFilled self.now caches.old }
        ensures value { ListsCalls self.now caches.new number function result }
        ensures there { IfOk result (λ _. HasInlined caches.new number function) }
        ensures fills { Fills O.pair_places self.now caches.old caches.new }
    {
        self.fill_calls(orders, caches, number, function)?;
        match look::calls_of(caches.units.as_slice(), number, function) {
            Ok(_) => Ok(()),
            Err(fault) => Err(fault),
        }
    }
}
