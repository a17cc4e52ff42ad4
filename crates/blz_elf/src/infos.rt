//! Infos of listed symbols.
ghost use Rattle.std.specs.Prelude.{◌≡◌, map};
ghost use Rattle.std.specs.Option.{option_map};
ghost use Rattle.blz_model.specs.Part.{Exactly, Gives, all_good};
ghost use Rattle.blz_elf.specs.Infos.{info_view, place_in, symbol_place, place_if, info_of};
ghost use Rattle.blz_symbols.specs.NameSteps.{named_view};

use crate::sym_info::{SymInfo, SymInfos};
use blz_constants::elf::{SHN_LORESERVE, SHT_NOBITS};
use blz_error::{Error, ErrorKind, Result, Str};
use blz_image::image::Image;
use blz_image::section::Section;
use blz_image::symbols::Symbol;
use blz_image::text::text_of;
use blz_symbols::names::NamedSymbol;
use std::alloc::Global;

/// The place of a symbol in the file, by its section.
fn place_in(section: &Section, symbol: &Symbol) -> Option<u64>
    ensures { result ≡ place_in section.now symbol.now }
{
    if section.kind == SHT_NOBITS {
        return None;
    }
    let place = symbol
        .value
        .wrapping_sub(section.addr)
        .wrapping_add(section.offset);
    if place < section.offset {
        return Some(place);
    }
    let distance = place - section.offset;
    if distance < section.size || (distance == section.size && symbol.size == 0) {
        Some(place)
    } else {
        None
    }
}

/// The place of a symbol in the file.
#[tactic(auto, unfolding(crate::specs::Infos::symbol_place))]
fn symbol_place(image: &Image<'_>, symbol: &Symbol) -> Result<Option<u64>>
    ensures { Exactly (λ p. p) result (symbol_place image.now symbol.now) }
{
    // from here on an index names no section
    if symbol.section >= SHN_LORESERVE {
        return Ok(None);
    }
    match image.section(symbol.section as usize) {
        Some(section) => Ok(place_in(&section, symbol)),
        None => Err(Error::new(ErrorKind::InvalidInput, Str::fixed("section of a symbol"))),
    }
}

/// The same, where it is asked.
#[tactic(auto, unfolding(crate::specs::Infos::place_if))]
fn place_if(asked: bool, image: &Image<'_>, symbol: &Symbol) -> Result<Option<u64>>
    ensures { Exactly (λ p. p) result (place_if asked image.now symbol.now) }
{
    if asked {
        symbol_place(image, symbol)
    } else {
        Ok(None)
    }
}

/// A symbol as it is shown.
#[tactic(auto, unfolding(crate::specs::Infos::info_of))]
pub fn info_of<'b>(
    image: &Image<'b>,
    module_name: Option<&'b str>,
    with_place: bool,
    named: &NamedSymbol<'b>,
) -> Result<SymInfo<'b>>
    ensures { Exactly info_view result (info_of image.now
        (option_map (λ m. m.now) module_name.entry) with_place (named_view named.now)) }
{
    let name = text_of(named.name)?;
    let file_offset = place_if(with_place, image, &named.symbol)?;
    Ok(SymInfo {
        name,
        addr: named.symbol.value,
        size: Some(named.symbol.size),
        sym_type: named.symbol.sym_type(),
        file_offset,
        module: module_name,
    })
}

/// The symbols of a list, as they are shown.
pub fn infos<'b>(
    alloc: Global,
    image: &Image<'b>,
    module_name: Option<&'b str>,
    with_place: bool,
    listed: &[NamedSymbol<'b>],
) -> Result<SymInfos<'b>>
    ensures { Gives (λ v. v) result
        (all_good (map (info_of image.now (option_map (λ m. m.now) module_name.entry) with_place)
        (map named_view listed.now))) }
{
    let mut items = Vec::new(alloc);
    for named in listed {
        items.push(info_of(image, module_name, with_place, named)?)?;
    }
    Ok(SymInfos::from_vec(items))
}
