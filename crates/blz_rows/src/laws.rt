//! What holds between the answers.
ghost use Rattle.std.specs.Prelude.{◌≡◌, ◌≢◌, ℕ, List};
ghost use Rattle.blz_units.specs.UnitSites.{location_at};
ghost use Rattle.blz_line.specs.Sequences.{Sequence};
ghost use Rattle.blz_model.specs.Part.{Good};
ghost use Rattle.blz_resolver.specs.Books.{Book};
ghost use Rattle.blz_resolver.specs.FileTexts.{texts_of};
ghost use Rattle.blz_rows.specs.Entries.{Entry, book_entries};
ghost use Rattle.blz_rows.specs.LineAnswers.{next_in};
ghost use Rattle.blz_rows.specs.RowLaws.{HasLine, HasRow, IsEntryOf, IsIn, IsNext, IsTakenFrom};

/// Each entry of a book is that of a row of a sequence of a unit.
pub fn each_entry_has_its_row()
    ensures { (book : Book) (entries : List Entry) (entry : Entry) → book_entries book ≡ Good entries → IsIn entry entries → HasRow book entry }
{}

/// Where the line of an entry's address is looked up in the entry's unit and sequence, and the entry has a line, the
/// address has that line.
pub fn address_of_an_entry_has_its_line()
    ensures { (book : Book) (unit : ℕ) (sequence : Sequence) (entry : Entry) → IsEntryOf book unit sequence entry
        → IsTakenFrom book entry.address unit sequence → entry.line ≢ 0
        → HasLine (location_at (texts_of book.files) book.files book.table entry.address) entry.line }
{}

/// The next line is a line of the file that is not below, and the least of them; there is none exactly where all lines of
/// the file are below.
pub fn next_line_is_the_least()
    ensures { (file : List ℕ) (line : ℕ) (entries : List Entry) → IsNext file line entries (next_in file line entries) }
{}
