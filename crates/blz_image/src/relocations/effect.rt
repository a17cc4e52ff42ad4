//! What an entry of relocations does.
ghost use Rattle.std.specs.Prelude.{◌≡◌};
ghost use Rattle.blz_image.specs.RelocationTables.{effect_of, value_at};
ghost use Rattle.blz_relocations.specs.Relocations.{relocation_of};

use crate::relocations::entries::Entry;
use crate::symbols::Symbols;

/// The value of a symbol, 0 where the index lies outside.
fn value_at(symbols: &Symbols<'_>, index: u64) -> u64
    ensures { result ≡ value_at symbols.now index }
{
    if (index as usize) < symbols.len() {
        symbols.at(index as usize).value
    } else {
        0
    }
}

/// The number that an entry puts, and whether it is added to what is read.
pub fn effect_of(symbols: &Symbols<'_>, entry: &Entry) -> (u64, bool)
    ensures { relocation_of result.0 result.1
        ≡ effect_of (value_at symbols.now entry.now.symbol) entry.now.addend }
{
    let value = value_at(symbols, entry.symbol);
    match entry.addend {
        Some(addend) => (value.wrapping_add(addend), false),
        None => (value, true),
    }
}
