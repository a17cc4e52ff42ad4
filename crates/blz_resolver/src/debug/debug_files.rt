//! The debug information of all images of a bundle.
ghost use Rattle.std.specs.Prelude.{◌≡◌, IfOk, IfSome};
ghost use Rattle.std.specs.FinMap as map;
ghost use Rattle.std.specs.Option.{option_map};
ghost use Rattle.blz_model.specs.Part.{Gives};
ghost use Rattle.blz_info.specs.FileSections.{sections_view};
ghost use Rattle.blz_split.specs.PackageParts.{package_view, package_of};
ghost use Rattle.blz_units.specs.BuiltUnits.{bytes_of, files_view, AreSupTexts, AreTextsOf, ArePacked, IsReadable};
ghost use Rattle.blz_resolver.specs.Books.{as_sup, debug_images, files_in, if_there, sup_image};
ghost use Rattle.blz_bundle.specs.BundleViews.{bundle_view, companion_view};
ghost use Rattle.blz_resolver.specs.DebugViews.{debug_view};
ghost use Rattle.blz_resolver.specs.FileViews.{images_view, package_info, package_strings, sup_info, sup_line_str, IsSup};
ghost use Rattle.blz_bundle.specs.Images.{debug_file};

use crate::debug::debug_image::DebugImage;
use blz_bundle::{Bundle, Companion};
use blz_elf::{ElfParser, RelocationMap};
use blz_entry::{Section, Sections, Texts};
use blz_error::Result;
use blz_index::{Dwarf, check_sup_units};
use blz_split::Package;
use std::alloc::Global;

/// The debug information of a bundle: the debug file's, the supplementary file's and the package.
#[derive(Drop)]
pub(crate) struct DebugFiles<'b> {
    pub main: DebugImage<'b>,
    pub sup: Option<DebugImage<'b>>,
    pub package: Option<Package<'b>>,
    /// No relocations.
    pub none: RelocationMap,
}

// The sections of a supplementary file.
fn sections_of_sup<'s, 'b>(sup: &'s DebugImage<'b>, none: &'s RelocationMap) -> Sections<'s, 'b>
    requires { none.now ≡ map.empty }
    ensures view { sections_view result ≡ as_sup (debug_view sup.now) }
    ensures is_sup { IsSup result }
{
    Sections {
        sup: true,
        ..sup.sections(none)
    }
}

#[tactic(auto, unfolding(crate::specs::Books::sup_image))]
fn read_sup<'b>(
    alloc: Global,
    none: &RelocationMap,
    parser: &mut ElfParser<'b>,
) -> Result<DebugImage<'b>>
    requires { none.now ≡ map.empty }
    ensures { Gives debug_view result (sup_image parser.old.image) }
{
    let debug = DebugImage::read(alloc, parser)?;
    check_sup_units(alloc, &Some(sections_of_sup(&debug, none)))?;
    Ok(debug)
}

fn read_sup_if_there<'b>(
    alloc: Global,
    none: &RelocationMap,
    file: &Option<Companion<'b>>,
) -> Result<Option<DebugImage<'b>>>
    requires { none.now ≡ map.empty }
    ensures { Gives (λ o. option_map debug_view o) result
        (if_there sup_image (option_map companion_view file.now)) }
{
    let Some(file) = file else {
        return Ok(None);
    };
    let mut parser = ElfParser::from_mem(alloc, file.image, file.module);
    let debug = read_sup(alloc, none, &mut parser)?;
    Ok(Some(debug))
}

fn read_package_if_there<'b>(
    alloc: Global,
    file: &Option<Companion<'b>>,
) -> Result<Option<Package<'b>>>
    ensures { Gives (λ o. option_map package_view o) result
        (if_there package_of (option_map companion_view file.now)) }
{
    let Some(file) = file else {
        return Ok(None);
    };
    let mut parser = ElfParser::from_mem(alloc, file.image, file.module);
    let package = Package::load(&mut parser)?;
    Ok(Some(package))
}

// ---- as they are lent to units

fn sup_of<'s, 'b>(
    sup: &'s Option<DebugImage<'b>>,
    none: &'s RelocationMap,
) -> Option<Sections<'s, 'b>>
    requires { none.now ≡ map.empty }
    ensures view { option_map sections_view result
        ≡ option_map as_sup (option_map debug_view sup.now) }
    ensures is_sup { IfSome result IsSup }
{
    match sup {
        Some(sup) => Some(sections_of_sup(sup, none)),
        None => None,
    }
}

fn strings_of<'s, 'b>(sup: &Option<Sections<'s, 'b>>) -> Option<Section<'s, 'b>>
    ensures { result ≡ option_map (λ s. s.strings) sup.now }
{
    match sup {
        Some(sections) => Some(sections.strings),
        None => None,
    }
}

fn bytes_of<'b>(section: &Option<Section<'_, 'b>>) -> &'b [u8]
    ensures { result.now ≡ bytes_of section.now }
{
    match section {
        Some(section) => section.bytes,
        None => &[],
    }
}

fn package_info<'b>(package: &Option<Package<'b>>) -> &'b [u8]
    ensures { result.now ≡ package_info «package».now }
{
    match package {
        Some(package) => package.info(),
        None => &[],
    }
}

fn package_strings<'b>(package: &Option<Package<'b>>) -> &'b [u8]
    ensures { result.now ≡ package_strings «package».now }
{
    match package {
        Some(package) => package.strings(),
        None => &[],
    }
}

fn sup_info<'b>(sup: &Option<Sections<'_, 'b>>) -> &'b [u8]
    ensures { result.now ≡ sup_info sup.now }
{
    match sup {
        Some(sections) => sections.info.bytes,
        None => &[],
    }
}

fn sup_line_str<'b>(sup: &Option<Sections<'_, 'b>>) -> &'b [u8]
    ensures { result.now ≡ sup_line_str sup.now }
{
    match sup {
        Some(sections) => sections.line_str.bytes,
        None => &[],
    }
}

fn texts_of<'b>(
    main: &Sections<'_, 'b>,
    package: &Option<Package<'b>>,
    sup: &Option<Sections<'_, 'b>>,
) -> Texts<'b>
    ensures main { AreTextsOf main.now result }
    ensures packed { ArePacked «package».now result }
    ensures sup { AreSupTexts sup.now result }
{
    Texts {
        info: main.info.bytes,
        line: main.line.bytes,
        strings: main.strings.bytes,
        line_str: main.line_str.bytes,
        sup_strings: bytes_of(&main.sup_strings),
        pack_info: package_info(package),
        pack_strings: package_strings(package),
        sup_info: sup_info(sup),
        sup_line_str: sup_line_str(sup),
    }
}

impl<'b> DebugFiles<'b> {
    /// Reads what the units of a bundle are read from; the parser is the one of its debug file. Refused by the first mark
    /// of the debug file, the supplementary file and the package, in this order.
    #[tactic(auto, unfolding(crate::specs::Books::debug_images))]
    pub fn read(
        alloc: Global,
        parser: &mut ElfParser<'b>,
        bundle: &Bundle<'b>,
    ) -> Result<DebugFiles<'b>>
        requires { parser.old.image ≡ (debug_file (bundle_view bundle.now)).image }
        ensures value { Gives images_view result (debug_images (bundle_view bundle.now)) }
        ensures none { IfOk result (λ f. f.none ≡ map.empty) }
        ensures same { parser.new ≡ parser.old }
    {
        let none = RelocationMap::new(alloc);
        let main = DebugImage::read(alloc, parser)?;
        let sup = read_sup_if_there(alloc, &none, &bundle.supplementary)?;
        let package = read_package_if_there(alloc, &bundle.package)?;
        Ok(DebugFiles {
            main,
            sup,
            package,
            none,
        })
    }

    /// The same as units are read from it.
    pub fn dwarf(&self) -> Dwarf<'_, 'b>
        requires { self.now.none ≡ map.empty }
        ensures view { files_view result ≡ files_in (images_view self.now) }
        ensures readable { IsReadable result }
    {
        let sup = sup_of(&self.sup, &self.none);
        let main = Sections {
            sup_strings: strings_of(&sup),
            ..self.main.sections(&self.none)
        };
        Dwarf {
            main,
            texts: texts_of(&main, &self.package, &sup),
            package: self.package,
            none: &self.none,
            sup,
        }
    }
}
