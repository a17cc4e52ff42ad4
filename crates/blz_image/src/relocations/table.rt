//! Tables of relocations, by their places.
ghost use Rattle.std.specs.Prelude.{◌≡◌, IfOk};
ghost use Rattle.blz_model.specs.Part.{Exactly};
ghost use Rattle.blz_image.specs.EntryPlaces.{entries_in};
ghost use Rattle.blz_image.specs.Places.{RowsFit};
ghost use Rattle.blz_image.specs.RelocationTables.{entry_at, entry_size};
ghost use Rattle.blz_image.specs.Sections.{records_of};
ghost use Rattle.blz_image.specs.TargetTables.{TableFits, table_part, table_view};

use crate::format::Format;
use crate::relocations::entries::{EntryKind, entry_size};
use crate::section::{Section, SectionTable, records};
use crate::span::Rows;
use crate::symbols::symbols_of;
use blz_error::{Error, ErrorKind, Result, Str};

/// The entries of a section of relocations and the symbols that they name, where they lie in the image.
#[derive(Clone, Copy)]
pub struct RelocationTable {
    pub kind: EntryKind,
    pub symbols: Rows,
    pub entries: Rows,
}

/// The place of the entries of a section.
#[tactic(auto, unfolding(crate::specs::Sections::records_of))]
fn entries_of(image: &[u8], section: &Section, kind: EntryKind, format: Format) -> Result<Rows>
    ensures value { Exactly (entries_in kind image.now) result
        (records_of (entry_at kind format) (entry_size kind format.class) image.now section.now) }
    ensures fits { IfOk result (RowsFit (entry_size kind) image.now) }
    ensures format { IfOk result (λ r. r.format ≡ format) }
{
    records(image, section, entry_size(kind, format.class), format)
}

/// The table that a section holds; takes no memory.
#[tactic(auto, unfolding(crate::specs::TargetTables::table_part))]
pub fn table_of(
    image: &[u8],
    format: Format,
    sections: &SectionTable<'_>,
    section: &Section,
    kind: EntryKind,
) -> Result<RelocationTable>
    ensures value { Exactly (table_view image.now) result
        (table_part format image.now sections.now section.now kind) }
    ensures fits { IfOk result (TableFits image.now) }
    ensures kind { IfOk result (λ t. t.kind ≡ kind) }
    ensures format { IfOk result (λ t. t.entries.format ≡ format) }
{
    let link = section.link as usize;
    if link >= sections.len() {
        return Err(Error::new(
            ErrorKind::InvalidInput,
            Str::fixed("symbols of relocations"),
        ));
    }
    let symbols = symbols_of(image, Some(sections.at(link)), format)?;
    let entries = entries_of(image, section, kind, format)?;
    Ok(RelocationTable {
        kind,
        symbols,
        entries,
    })
}
