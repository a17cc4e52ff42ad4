//! What stands above the entries below a function.
ghost use Rattle.std.specs.Prelude.{◌≡◌, ◌<◌, ◌^◌, ◌+◌, ◌∷◌, [], length, nat_lt, IfOk, OnOk};
ghost use Rattle.blz_functions.specs.CallTree.{is_call_tag};
ghost use Rattle.blz_functions.specs.CallWalk.{depth_of, below_tag, innermost, closed_level, opened_level, levels_behind, call_depth};
ghost use Rattle.blz_functions.specs.declared.levels.Above.TheVariants.{Calls};

use crate::function_lists::is_function_tag;
use blz_constants::dwarf;
use blz_entry::Entry;
use std::alloc::{AllocError, Global};
use std::marker::Model;

/// What stands above some entries below a function.
#[derive(Clone, Copy)]
pub enum Above {
    /// So many inlined calls of the function.
    Calls(usize),
    /// Another function.
    AnotherFunction,
}

fn is_call_tag(tag: u64) -> bool
    ensures { result ≡ is_call_tag tag }
{
    tag == dwarf::DW_TAG_inlined_subroutine
}

impl Above {
    /// What stands above the children of an entry.
    fn below(self, tag: u64) -> Above
        requires { depth_of self + 1 < 2 ^ 64 }
        ensures { result ≡ below_tag self tag }
    {
        match self {
            Above::AnotherFunction => self,
            Above::Calls(depth) => if is_call_tag(tag) {
                Above::Calls(depth + 1)
            } else if is_function_tag(tag) {
                Above::AnotherFunction
            } else {
                self
            },
        }
    }
}

/// What stands above the entries of each level that is open, the outermost first.
#[derive(Drop)]
pub struct Levels {
    above: Vec<Above>,
}

impl Model for Levels {
    ghost use Rattle.std.specs.Prelude.{List};
    ghost use Rattle.blz_functions.specs.declared.levels.Above.{Above};
    ghost use Rattle.blz_functions.specs.CallWalk.{IsCounted};

    ghost Value = { List Above };

    ghost view = { λ l. l.above.items };

    ghost invariant = { λ l. IsCounted l.above.items };
}

impl Levels {
    /// The level of the entries that stand right below a function.
    pub fn new(alloc: Global) -> Result<Levels, AllocError>
        ensures { IfOk result (λ l. l ≡ Calls 0 ∷ []) }
    {
        let mut above = Vec::new(alloc);
        above.push(Above::Calls(0))?;
        Ok(Levels { above })
    }

    /// Whether the function is not closed yet.
    pub fn is_open(&self) -> bool
        ensures { result ≡ nat_lt 0 (length self.now) }
    {
        self.above.len() > 0
    }

    fn innermost(&self) -> Option<Above>
        ensures { result ≡ innermost self.now }
    {
        self.above.last().copied()
    }

    /// The depth of an entry of the innermost level, where it is a call of the function.
    pub fn call_depth(&self, tag: u64) -> Option<usize>
        ensures { result ≡ call_depth (innermost self.now) tag }
    {
        match self.innermost() {
            Some(Above::Calls(depth)) => if is_call_tag(tag) { Some(depth) } else { None },
            Some(Above::AnotherFunction) => None,
            None => None,
        }
    }

    fn close(&mut self)
        ensures { self.new ≡ closed_level self.old }
    {
        self.above.pop();
    }

    fn open(&mut self, tag: u64) -> Result<(), AllocError>
        ensures { OnOk result (self.new ≡ opened_level self.old tag) }
    {
        match self.innermost() {
            Some(above) => {
                self.above.push(above.below(tag))?;
                Ok(())
            }
            None => Ok(()),
        }
    }

    /// Goes past an entry, which may be a zero.
    pub fn pass(&mut self, entry: &Entry) -> Result<(), AllocError>
        ensures { OnOk result (self.new ≡ levels_behind self.old entry.now) }
    {
        if entry.code == 0 {
            self.close();
            return Ok(());
        }
        if entry.children {
            return self.open(entry.tag);
        }
        Ok(())
    }
}
