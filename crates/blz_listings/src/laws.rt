//! What holds between the answers.
ghost use Rattle.std.specs.Prelude.{◌≡◌, ◌∷◌, ℕ, List, [], filter, length, sum_by, true};
ghost use Rattle.std.specs.List.{IsDistinct};
ghost use Rattle.blz_error.specs.Texts.{Bytes};
ghost use Rattle.blz_model.specs.Part.{Good};
ghost use Rattle.blz_resolver.specs.AnswerLaws.{AllRead, IsNamedAt};
ghost use Rattle.blz_resolver.specs.Books.{Book, frame_of};
ghost use Rattle.blz_resolver.specs.Images.{ImageSet};
ghost use Rattle.blz_rows.specs.Entries.{Entry};
ghost use Rattle.blz_listings.specs.FindLaws.{HasFunction, IsTold, LeadBack};
ghost use Rattle.blz_listings.specs.FindTexts.{find_text};
ghost use Rattle.blz_listings.specs.SourcePlaces.{has_line, is_same, place_counts, places_listed};

/// No place is listed twice.
pub fn each_place_is_listed_once()
    ensures { (entries : List Entry) → IsDistinct is_same (places_listed entries) }
{}

/// The numbers of the places sum to that of the entries that have a line.
pub fn counts_sum_to_the_entries_with_a_line()
    ensures { (entries : List Entry) → sum_by (λ t. t.count) (place_counts entries)
        ≡ length (filter has_line entries) }
{}

/// Where all functions can be read, the name of a function that answers an address is told with addresses.
pub fn answered_function_is_told_by_name()
    ensures { (images : ImageSet) (b : Book) (addr k n : ℕ) (name : Bytes) → frame_of images ≡ Good b
        → AllRead b.files b.table → IsNamedAt b addr k n name → IsTold images name }
{}

/// Where no two loaded segments share a place, the places that are told of all functions lead back to their addresses.
pub fn places_of_all_functions_lead_back()
    ensures { (images : ImageSet) (text : Bytes) → find_text true [] images ≡ Good text
        → LeadBack images text }
{}

/// The same of the functions of a name.
pub fn places_of_named_functions_lead_back()
    ensures { (images : ImageSet) (b : Book) (name text : Bytes) → frame_of images ≡ Good b
        → HasFunction b name → find_text true (name ∷ []) images ≡ Good text
        → LeadBack images text }
{}
