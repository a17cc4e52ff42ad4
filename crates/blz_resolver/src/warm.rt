//! What is kept of a bundle, without its images.
ghost use Rattle.std.specs.Prelude.{◌≡◌, true};
ghost use Rattle.std.specs.FinMap as finite;
ghost use Rattle.std.specs.Option.{option_map};
ghost use Rattle.blz_model.specs.Part.{Good};
ghost use Rattle.blz_split.specs.PackageParts.{package_view, package_of};
ghost use Rattle.blz_resolver.specs.Books.{framed, if_there, sup_image};
ghost use Rattle.blz_bundle.specs.BundleViews.{bundle_view, companion_view};
ghost use Rattle.blz_resolver.specs.DebugSections.{debug_parts};
ghost use Rattle.blz_resolver.specs.DebugViews.{parts_view, debug_view};
ghost use Rattle.blz_bundle.specs.Images.{debug_file};
ghost use Rattle.blz_resolver.specs.Resolver.{HasBook, HasBookIf, has_debug, units_in};
ghost use Rattle.blz_resolver.specs.Sources.{IsOf};
ghost use Rattle.blz_resolver.specs.WarmFits.{IsThere, IsSupWith, SupFits, WarmBook, WarmBookIf, WarmFits, warm_units, warm_prepared, warm_units_in};

use crate::ElfResolver;
use crate::debug::debug_data::DebugData;
use crate::debug::debug_files::DebugFiles;
use crate::debug::debug_image::DebugImage;
use crate::debug::debug_info::DebugInfo;
use blz_bundle::{Bundle, Companion};
use blz_elf::{ElfParser, ElfWarm, RelocationMap, SectionRelocations};
use blz_index::Units;
use blz_split::Package;
use std::alloc::Global;

// The relocations and the units of a bundle's debug information.
#[derive(Drop)]
pub(crate) struct WarmDebug {
    pub main: SectionRelocations,
    pub sup: Option<SectionRelocations>,
    pub units: Units,
}

/// What was read of a bundle, as places and numbers.
#[derive(Drop)]
pub struct Warm {
    pub(crate) elf: ElfWarm,
    pub(crate) debug: Option<WarmDebug>,
    pub(crate) prepared: bool,
}

// ---- from a resolver

fn relocations_of(sup: Option<DebugImage<'_>>) -> Option<SectionRelocations>
    ensures { result ≡ option_map (λ d. d.relocations) sup.entry }
{
    match sup {
        Some(debug) => Some(debug.relocations),
        None => None,
    }
}

pub(crate) fn warm_debug<'b>(bundle: &Bundle<'b>, debug: Option<DebugInfo<'b>>) -> Option<WarmDebug>
    requires { HasBookIf (bundle_view bundle.now) debug }
    ensures fits { WarmBookIf (bundle_view bundle.now) result }
    ensures units { warm_units_in result ≡ units_in debug.entry }
{
    match debug {
        Some(info) => {
            let DebugInfo { files, units } = info;
            let DebugFiles { main, sup, .. } = files;
            Some(WarmDebug {
                main: main.relocations,
                sup: relocations_of(sup),
                units,
            })
        }
        None => None,
    }
}

// ---- and back

// The sections of an image that was read before.
fn data_again<'b>(parser: &mut ElfParser<'b>) -> DebugData<'b>
    requires { IsThere (debug_parts parser.old.image) }
    ensures value { debug_parts parser.old.image ≡ Good (parts_view result) }
    ensures same { parser.new ≡ parser.old }
{
    match DebugData::read(parser) {
        Ok(data) => data,
        Err(_) => unreachable!(),
    }
}

fn sup_with<'b>(
    alloc: Global,
    file: Companion<'b>,
    relocations: SectionRelocations,
) -> DebugImage<'b>
    requires { IsSupWith file.image.now relocations }
    ensures { sup_image file.entry.image.now ≡ Good (debug_view result) }
{
    let mut parser = ElfParser::from_mem(alloc, file.image, file.module);
    let data = data_again(&mut parser);
    DebugImage { data, relocations }
}

fn sup_again<'b>(
    alloc: Global,
    file: &Option<Companion<'b>>,
    relocations: Option<SectionRelocations>,
) -> Option<DebugImage<'b>>
    requires { SupFits (option_map companion_view file.now) relocations }
    ensures { if_there sup_image (option_map companion_view file.now)
        ≡ Good (option_map debug_view result) }
{
    let Some(file) = file else {
        return None;
    };
    match relocations {
        Some(relocations) => Some(sup_with(alloc, *file, relocations)),
        None => None,
    }
}

fn package_again<'b>(alloc: Global, file: &Option<Companion<'b>>) -> Option<Package<'b>>
    requires { IsThere (if_there package_of (option_map companion_view file.now)) }
    ensures { if_there package_of (option_map companion_view file.now)
        ≡ Good (option_map package_view result) }
{
    let file = (*file)?;
    let mut parser = ElfParser::from_mem(alloc, file.image, file.module);
    match Package::load(&mut parser) {
        Ok(package) => Some(package),
        Err(_) => unreachable!(),
    }
}

fn info_again<'b>(
    alloc: Global,
    bundle: &Bundle<'b>,
    parser: &mut ElfParser<'b>,
    warm: WarmDebug,
) -> DebugInfo<'b>
    requires fits { WarmBook (bundle_view bundle.now) warm }
    requires parser { IsOf (debug_file (bundle_view bundle.now)) parser.old }
    ensures has { HasBook (bundle_view bundle.now) result }
    ensures units { result.units ≡ warm.units }
    ensures same { parser.new ≡ parser.old }
{
    let data = data_again(parser);
    let main = DebugImage {
        data,
        relocations: warm.main,
    };
    let files = DebugFiles {
        main,
        sup: sup_again(alloc, &bundle.supplementary, warm.sup),
        package: package_again(alloc, &bundle.package),
        none: RelocationMap::new(alloc),
    };
    DebugInfo {
        files,
        units: warm.units,
    }
}

impl<'b> ElfResolver<'b> {
    /// A resolver of the bundle that the kept parts fit; takes no memory. With debug information the frame was read.
    pub fn from_warm(alloc: Global, bundle: &Bundle<'b>, warm: Warm) -> ElfResolver<'b>
        requires { WarmFits (bundle_view bundle.now) warm }
        ensures images { result.images ≡ bundle_view bundle.now }
        ensures units { result.units ≡ warm_units warm }
        ensures is_prepared { result.prepared ≡ warm_prepared warm }
        ensures frame { has_debug result ≡ true → framed (bundle_view bundle.now) ≡ Good tt }
    {
        let Warm {
            elf,
            debug,
            prepared,
        } = warm;
        match debug {
            Some(debug) => {
                let file = bundle.debug_file();
                let mut parser = ElfParser::from_warm(file.image, file.module, elf);
                let info = info_again(alloc, bundle, &mut parser, debug);
                ElfResolver {
                    alloc,
                    bundle: *bundle,
                    parser,
                    debug: Some(info),
                    prepared,
                }
            }
            None => ElfResolver {
                alloc,
                bundle: *bundle,
                parser: ElfParser::from_warm(bundle.image, bundle.module, elf),
                debug: None,
                prepared,
            },
        }
    }
}
