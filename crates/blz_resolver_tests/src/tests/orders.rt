//! Orders that the caller hands in.
ghost use Rattle.std.specs.Prelude.{None};

use super::built::LITTLE4;
use super::functions::nested;
use super::shown::names_by;
use blz_bytes::{ByStdSort, Key, NameSpan, Orders};
use blz_checks::Checks;
use blz_error::Result;
use blz_runs::lone;
use std::alloc::Global;
use std::test::Fail;

/// Counts how often it is asked for an order of numbers.
#[derive(Drop)]
struct Counting {
    asked: u64,
}

impl Orders for Counting {
    ghost pair_places = { None };

    ghost name_places = { None };

    fn by_pair(&mut self, keys: &[Key], places: &mut [usize]) {
        self.asked = self.asked.saturating_add(1);
        ByStdSort.by_pair(keys, places);
    }

    fn by_name(&mut self, strs: &[u8], names: &[NameSpan], places: &mut [usize]) {
        ByStdSort.by_name(strs, names, places);
    }
}

// whether the function is found
fn is_found(alloc: Global, orders: &mut Counting) -> Result<bool> {
    let image = nested(alloc, LITTLE4)?;
    let found = names_by(alloc, orders, &lone(&image), &[0x24])?;
    Ok(found.as_slice() == [Some("second")].as_slice())
}

#[test]
fn the_order_is_asked_of_the_caller(rt: HostRuntime) -> std::result::Result<(), Fail> {
    let mut checks = Checks::new();
    let mut orders = Counting { asked: 0 };
    checks.gives(is_found(rt.alloc(), &mut orders), true);
    checks.holds(orders.asked >= 2);
    checks.result()
}
