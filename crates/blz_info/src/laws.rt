//! What holds of the definitions, as the layers above use it.
ghost use Rattle.std.specs.Prelude.{◌≡◌, ◌<◌, ◌≤◌, [], ℕ, Option, Some, length, option_map};
ghost use Rattle.blz_info.specs.Contents.{Contents};
ghost use Rattle.blz_info.specs.Forest.{Head, LeadsOn, forest, flat, preorder};
ghost use Rattle.blz_info.specs.Headers.{header_at, headers_from, headers_behind};

/// The flat walk over what stands at places is the preorder of the trees, each entry with its depth.
pub fn flat_walk_is_preorder()
    ensures { (head : ℕ → Option Head) (end at : ℕ) → LeadsOn head end
        → option_map (preorder 0) (forest head end at) ≡ flat head end 0 at }
{}

/// The headers of a section are the one at a place, and those behind its unit.
pub fn headers_follow_each_other()
    ensures behind { (s : Contents) (at : ℕ) → at < length s.bytes
        → headers_from s at ≡ headers_behind s (header_at s at) }
    ensures end { (s : Contents) (at : ℕ) → length s.bytes ≤ at → headers_from s at ≡ Some [] }
{}
