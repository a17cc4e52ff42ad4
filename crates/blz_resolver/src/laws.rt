//! What holds between the answers.
ghost use Rattle.std.specs.Prelude.{◌≡◌, ℕ, List, false, Some};
ghost use Rattle.blz_units.specs.BuiltUnits.{Files};
ghost use Rattle.blz_units.specs.UnitAnswers.{function_at};
ghost use Rattle.blz_units.specs.UnitTables.{UnitTable};
ghost use Rattle.blz_resolver.specs.AnswerLaws.{AllRead, IsCovered, IsNamedAt, IsSomeList};
ghost use Rattle.blz_resolver.specs.Books.{Book};
ghost use Rattle.blz_resolver.specs.FileTexts.{texts_of};
ghost use Rattle.blz_resolver.specs.FunctionNames.{addresses_in};

/// Where a function answers an address, one of its ranges covers it.
pub fn answered_function_covers()
    ensures { (f : Files) (t : UnitTable) (addr k n : ℕ)
        → function_at f t addr ≡ Some (Some (k, n)) → IsCovered f t addr k n }
{}

/// Where all functions can be read, a function that answers an address is found by its name.
pub fn answered_function_is_found_by_name()
    ensures { (b : Book) (addr k n : ℕ) (name : List ℕ) → AllRead b.files b.table
        → IsNamedAt b addr k n name → IsSomeList (addresses_in (texts_of b.files) b name false) }
{}
