//! What tests compare by. A comparison that is a call, and ends nothing, leaves the proof of a test without a branch, so
//! that a test of many rows is proved in the time of a few calls. No crate of the product stands on it.
#![tactic(auto)]

use std::fmt::{Debug, Display, InlineText};
use std::test::Fail;

const TEXT_CAPACITY: usize = 512;

/// The comparisons of a test: how many, and the first that did not hold. It has no `Drop`, so that a test cannot leave
/// out its result.
pub struct Checks {
    count: usize,
    failed: Option<InlineText<{ TEXT_CAPACITY }>>,
}

impl Checks {
    /// None yet.
    pub fn new() -> Checks {
        Checks {
            count: 0,
            failed: None,
        }
    }

    fn fail<D: Display + Drop>(&mut self, why: D) {
        if self.failed.is_none() {
            let count = self.count;
            self.failed = Some(InlineText::of(format_args!("check {count}: {why}")));
        }
    }

    /// Two values are to be the same.
    pub fn same<T: PartialEq + Debug + Drop>(&mut self, got: T, wanted: T) {
        self.count = self.count.saturating_add(1);
        if got != wanted {
            self.fail(format_args!("got {got:?}, wanted {wanted:?}"));
        }
    }

    /// There is to be a value, this one.
    pub fn gives<T: PartialEq + Debug + Drop, E: Debug + Drop>(
        &mut self,
        got: Result<T, E>,
        wanted: T,
    ) {
        match got {
            Ok(got) => self.same(got, wanted),
            Err(error) => {
                self.count = self.count.saturating_add(1);
                self.fail(format_args!("got the error {error:?}, wanted {wanted:?}"));
            }
        }
    }

    /// This is to hold.
    pub fn holds(&mut self, condition: bool) {
        self.same(condition, true);
    }

    /// What a test answers: a failure names the number of the first comparison that did not hold, and its values.
    pub fn result(self) -> Result<(), Fail> {
        let Checks { count: _, failed } = self;
        match failed {
            None => Ok(()),
            Some(text) => Err(Fail::new(text.as_str())),
        }
    }
}
