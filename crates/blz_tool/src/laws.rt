//! What holds of the words.
ghost use Rattle.std.specs.Prelude.{◌≡◌, ℕ, ◌<◌, ◌^◌, ◌∷◌, List, true, length};
ghost use Rattle.std.specs.List.{list_all};
ghost use Rattle.blz_tool.specs.CommandLine.{is_taken};
ghost use Rattle.blz_tool.specs.PlainWords.{is_plain};

/// The simple command takes a path and fewer than 2^64 words after it, of which none begins with a hyphen.
pub fn plain_words_are_taken()
    ensures { (path : List ℕ) (words : List (List ℕ)) → is_plain path ≡ true
        → list_all is_plain words ≡ true
        → length words < 2 ^ 64 → is_taken (path ∷ words) ≡ true }
{}
