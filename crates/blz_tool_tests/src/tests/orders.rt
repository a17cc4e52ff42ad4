//! Runs with orders that lie: they change no answer.
ghost use Rattle.std.specs.Prelude.{None};

use crate::tests::images::{TEXT, WORDS};
use crate::tests::runs::{holding, run_by};
use blz_bytes::{Key, NameSpan, Orders};
use blz_checks::Checks;
use blz_images::{ByteOrder, realistic_walk};
use blz_runs::roomy;
use std::test::Fail;

/// Turns round what stands there, or puts the greatest place everywhere.
#[derive(Drop)]
struct Lying {
    turns: bool,
}

impl Lying {
    fn place(&self, places: &mut [usize]) {
        if self.turns {
            places.reverse();
        } else {
            places.fill(usize::MAX);
        }
    }
}

impl Orders for Lying {
    ghost pair_places = { None };

    ghost name_places = { None };

    fn by_pair(&mut self, _keys: &[Key], places: &mut [usize]) {
        self.place(places);
    }

    fn by_name(&mut self, _strs: &[u8], _names: &[NameSpan], places: &mut [usize]) {
        self.place(places);
    }
}

#[test]
fn places_reversed_or_outside_of_the_list_change_no_text(rt: HostRuntime) -> Result<(), Fail> {
    let mut checks = Checks::new();
    let alloc = rt.alloc();
    for order in [ByteOrder::Little, ByteOrder::Big] {
        let mut files = holding(
            alloc,
            "prog",
            realistic_walk(alloc, order).expect(&rt, "refused"),
        )
        .expect(&rt, "refused");
        for turns in [false, true] {
            let ended = run_by(
                alloc,
                &mut files,
                &mut Lying { turns },
                &WORDS,
                roomy(alloc).expect(&rt, "refused"),
            )
            .expect(&rt, "refused");
            checks.holds(ended.is(0, TEXT.as_bytes(), b""));
        }
    }
    checks.result()
}
