//! What holds of the definitions, as callers use it.
ghost use Rattle.std.specs.Prelude.{◌≡◌, ℕ, List, Some, length};
ghost use Rattle.blz_functions.specs.CallTree.{CallLists, IsTreeOf};
ghost use Rattle.blz_functions.specs.Chain.{IsNested, IsPath, TreeCall, chain};
ghost use Rattle.blz_units.specs.BuiltUnits.{Files};
ghost use Rattle.blz_index.specs.FunctionTrees.{HasTree};
ghost use Rattle.blz_units.specs.UnitAnswers.{function_calls};
ghost use Rattle.blz_units.specs.UnitTables.{UnitTable};

pub use blz_functions::laws::calls_are_tree;
pub use blz_ranges::laws::best_and_next_give_all;

/// The calls of a function, by its number in a unit, make a tree, from which their lists are made. So where each call lies
/// within its parent, and apart from those beside it, the chain of an address is the path of all calls that cover it, each
/// the parent of the next.
pub fn function_calls_are_tree()
    ensures tree { (f : Files) (t : UnitTable) (k n : ℕ) (lists : CallLists)
        → function_calls f t k n ≡ Some lists → HasTree lists }
    ensures path { (lists : CallLists) (tree : List TreeCall) (addr : ℕ) → IsTreeOf lists tree
        → IsNested tree → IsPath tree addr (chain lists.ranges (length lists.calls) addr) }
{}
