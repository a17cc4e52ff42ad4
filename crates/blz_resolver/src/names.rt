//! The addresses of names, and places of the file.
ghost use Rattle.std.specs.Prelude.{◌≡◌, false, is_some};
ghost use Rattle.blz_model.specs.Part.{Gives, Exactly};
ghost use Rattle.blz_elf.specs.Listings.{ShowsAll};
ghost use Rattle.blz_image.specs.Segments.{image_address_of};
ghost use Rattle.blz_bundle.specs.BundleViews.{bundle_view};
ghost use Rattle.blz_resolver.specs.FunctionNames.{addresses_of, listing_in};
ghost use Rattle.blz_resolver.specs.Resolver.{Stays, HasBookIf, has_debug, UnitsStayIf, units_in};
ghost use Rattle.blz_resolver.specs.Sources.{IsOf, asked_file};

use crate::ElfResolver;
use crate::debug::debug_info::DebugInfo;
use blz_bundle::Bundle;
use blz_bytes::Orders;
use blz_elf::{ElfParser, FindAddrOpts, SymInfos, Visit};
use blz_error::Result;
use std::alloc::Global;

// The symbols of a name, by the debug information where there is some.
fn find_addr<'b, O: Orders>(
    alloc: Global,
    orders: &mut O,
    bundle: &Bundle<'b>,
    parser: &mut ElfParser<'b>,
    debug: &mut Option<DebugInfo<'b>>,
    name: &str,
    opts: &FindAddrOpts,
) -> Result<SymInfos<'b>>
    requires parser { IsOf (asked_file (bundle_view bundle.now) (is_some debug.old)) parser.old }
    requires debug { HasBookIf (bundle_view bundle.now) debug.old }
    ensures value { Gives (λ v. v) result
        (addresses_of (bundle_view bundle.now) (is_some debug.old) name.now opts.now) }
    ensures debug { HasBookIf (bundle_view bundle.now) debug.new }
    ensures stay { UnitsStayIf (units_in debug.old) (units_in debug.new) }
    ensures same { parser.new ≡ parser.old }
{
    match debug {
        Some(info) => info.find_addr(alloc, orders, bundle, parser, name, opts),
        None => parser.find_addr(alloc, orders, name, opts),
    }
}

// Shows the symbols, by the debug information where there is some.
fn for_each<'b, O: Orders, V: Visit>(
    alloc: Global,
    orders: &mut O,
    bundle: &Bundle<'b>,
    parser: &mut ElfParser<'b>,
    debug: &mut Option<DebugInfo<'b>>,
    opts: &FindAddrOpts,
    visit: &mut V,
) -> Result<()>
    requires parser { IsOf (asked_file (bundle_view bundle.now) (is_some debug.old)) parser.old }
    requires debug { HasBookIf (bundle_view bundle.now) debug.old }
    requires goes_on { V.stopped visit.old ≡ false }
    ensures shows { ShowsAll (listing_in (bundle_view bundle.now) (is_some debug.old) opts.now)
        (V.shown visit.old) (V.shown visit.new) (V.stopped visit.new) result }
    ensures debug { HasBookIf (bundle_view bundle.now) debug.new }
    ensures stay { UnitsStayIf (units_in debug.old) (units_in debug.new) }
    ensures same { parser.new ≡ parser.old }
{
    match debug {
        Some(info) => info.for_each(alloc, orders, bundle, opts, visit),
        None => parser.for_each(alloc, orders, opts, visit),
    }
}

impl<'b> ElfResolver<'b> {
    /// The addresses of a name. With debug information: of each unit the first function of that name, and where there is
    /// none the symbols of the debug file; Unsupported, before all else, exactly where variables are asked. Without: the
    /// symbols of the image. Refused by the first mark that the search meets.
    pub fn find_addr<O: Orders>(
        &mut self,
        alloc: Global,
        orders: &mut O,
        name: &str,
        opts: &FindAddrOpts,
    ) -> Result<SymInfos<'b>>
        ensures value { Gives (λ v. v) result
            (addresses_of self.old.images (has_debug self.old) name.now opts.now) }
        ensures stays { Stays self.old self.new }
    {
        find_addr(
            alloc,
            orders,
            &self.bundle,
            &mut self.parser,
            &mut self.debug,
            name,
            opts,
        )
    }

    /// Shows all functions that have a name, units and functions in their order, and without debug information the symbols
    /// of the image. It ends where the visitor breaks. Refused as `find_addr` is, once all before the mark was shown.
    pub fn for_each<O: Orders, V: Visit>(
        &mut self,
        alloc: Global,
        orders: &mut O,
        opts: &FindAddrOpts,
        visit: &mut V,
    ) -> Result<()>
        requires { V.stopped visit.old ≡ false }
        ensures shows { ShowsAll (listing_in self.old.images (has_debug self.old) opts.now)
            (V.shown visit.old) (V.shown visit.new) (V.stopped visit.new) result }
        ensures stays { Stays self.old self.new }
    {
        for_each(
            alloc,
            orders,
            &self.bundle,
            &mut self.parser,
            &mut self.debug,
            opts,
            visit,
        )
    }

    /// The address of a place in the image's file, by the first loaded segment that holds it (ELF gABI, Program Header);
    /// none where no segment does. Refused by the first mark of header and segments: InvalidData or Unsupported.
    pub fn file_offset_to_virt_offset(&mut self, file_offset: u64) -> Result<Option<u64>>
        ensures value { Exactly (λ o. o) result
            (image_address_of self.old.images.main.image file_offset) }
        ensures same { self.new ≡ self.old }
    {
        let mut parser = ElfParser::from_mem(self.alloc, self.bundle.image, self.bundle.module);
        parser.file_offset_to_virt_offset(file_offset)
    }
}
