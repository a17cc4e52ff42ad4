//! What holds of the definitions, as the layers above use it.
ghost use Rattle.std.specs.Prelude.{◌≡◌, ℕ, List, Some, map, length};
ghost use Rattle.blz_functions.specs.CallTree.{RangedCall, IsTreeOf, calls_of, calls_with, no_calls, tree_call};
ghost use Rattle.blz_functions.specs.Chain.{IsNested, IsPath, chain};
ghost use Rattle.blz_functions.specs.Describing.{Refer};
ghost use Rattle.blz_functions.specs.Leaves.{UnitParts};

/// The calls of a function make a tree. So where each call lies within its parent, and apart from those beside it, the
/// chain of an address is the path of all calls that cover it, each the parent of the next.
pub fn calls_are_tree()
    ensures tree { (refer : Refer) (u : UnitParts) (place : ℕ) (calls : List RangedCall)
        → calls_of refer u place ≡ Some calls
        → IsTreeOf (calls_with no_calls calls) (map tree_call calls) }
    ensures path { (refer : Refer) (u : UnitParts) (place : ℕ) (calls : List RangedCall) (addr : ℕ)
        → calls_of refer u place ≡ Some calls → IsNested (map tree_call calls)
        → IsPath (map tree_call calls) addr (chain (calls_with no_calls calls).ranges
        (length (calls_with no_calls calls).calls) addr) }
{}
