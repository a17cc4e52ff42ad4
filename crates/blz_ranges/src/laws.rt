//! What holds of the definitions, as the layers above use it.
ghost use Rattle.std.specs.Prelude.{◌≡◌, ℕ, List};
ghost use Rattle.blz_ranges.specs.declared.span.Span.{Span};
ghost use Rattle.blz_ranges.specs.Turns.{IsTurns, covering};

/// Asking for the best range, and then for the next one, gives all ranges that cover an address, in their order.
pub fn best_and_next_give_all()
    ensures { (spans : List Span) (addr : ℕ) → IsTurns spans addr (covering spans addr) }
{}
