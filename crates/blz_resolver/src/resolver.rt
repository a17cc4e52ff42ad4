//! One bundle, as it is asked.
ghost use Rattle.std.specs.Prelude.{◌≡◌, true, false, is_some, None, IfOk, IfErr, IfSome};
ghost use Rattle.blz_model.specs.Part.{Gives};
ghost use Rattle.blz_elf.specs.AnswerView.{answer_view};
ghost use Rattle.blz_index.specs.UnitsWarm.{AnnouncedOrdered, AreCold};
ghost use Rattle.blz_resolver.specs.AddressAnswers.{answer_of};
ghost use Rattle.blz_resolver.specs.Books.{framed};
ghost use Rattle.blz_bundle.specs.BundleViews.{bundle_view};
ghost use Rattle.blz_resolver.specs.FormatKinds.{IsMemoryOrFormat};
ghost use Rattle.blz_resolver.specs.Resolver.{Stays, HasBookIf, has_debug, UnitsStayIf, units_in};
ghost use Rattle.blz_resolver.specs.Sources.{IsOf, asked_file};
ghost use Rattle.blz_resolver.specs.WarmFits.{WarmFits, warm_prepared, warm_units};

use crate::debug::debug_info::DebugInfo;
use crate::warm::{Warm, warm_debug};
use blz_bundle::Bundle;
use blz_bytes::Orders;
use blz_elf::{Answer, ElfParser, FindSymOpts};
use blz_error::Result;
use std::alloc::Global;
use std::marker::Model;

/// Answers for the addresses and names of one bundle. What was read is kept.
pub struct ElfResolver<'b> {
    pub(crate) alloc: Global,
    pub(crate) bundle: Bundle<'b>,
    // the parser of the debug file, and without debug information that of the image
    pub(crate) parser: ElfParser<'b>,
    pub(crate) debug: Option<DebugInfo<'b>>,
    pub(crate) prepared: bool,
}

// Written out, so that letting go of one is a call, which is proved once, and not a walk through it at each place.
impl<'b> Drop for ElfResolver<'b> {
    fn drop(self) {
        let ElfResolver {
            alloc: _,
            bundle: _,
            parser: _,
            debug: _,
            prepared: _,
        } = self;
    }
}

impl<'b> Model for ElfResolver<'b> {
    ghost use Rattle.blz_bundle.specs.BundleViews.{bundle_view};
    ghost use Rattle.blz_resolver.specs.Resolver.{Resolver, Fits, units_in};
    ghost use Rattle.blz_index.specs.contracts.units.Units as units;
    ghost use Rattle.std.specs.Coded.{codes};

    ghost Value = { Resolver };

    ghost coded = { Prim.hlevel (codes, units.the_row.coded) };

    ghost view = { λ r. record { images = bundle_view r.bundle; units = units_in r.debug; prepared = r.prepared } };

    ghost invariant = { λ r. Fits (bundle_view r.bundle) r.parser r.debug r.prepared };
}

// The symbol of an address, by the debug information where there is some.
fn find_sym<'b, O: Orders>(
    alloc: Global,
    orders: &mut O,
    bundle: &Bundle<'b>,
    parser: &mut ElfParser<'b>,
    debug: &mut Option<DebugInfo<'b>>,
    addr: u64,
    opts: &FindSymOpts,
) -> Result<Answer<'b>>
    requires parser { IsOf (asked_file (bundle_view bundle.now) (is_some debug.old)) parser.old }
    requires debug { HasBookIf (bundle_view bundle.now) debug.old }
    ensures value { Gives answer_view result
        (answer_of (bundle_view bundle.now) (is_some debug.old) addr opts.now) }
    ensures debug { HasBookIf (bundle_view bundle.now) debug.new }
    ensures stay { UnitsStayIf (units_in debug.old) (units_in debug.new) }
    ensures same { parser.new ≡ parser.old }
{
    match debug {
        Some(info) => info.find_sym(alloc, orders, bundle, parser, addr, opts),
        None => parser.find_sym(alloc, orders, addr, opts),
    }
}

impl<'b> ElfResolver<'b> {
    /// What is kept, without the images; takes no memory.
    pub fn into_warm(self) -> Warm
        ensures fits { WarmFits self.entry.images result }
        ensures units { warm_units result ≡ self.entry.units }
        ensures is_prepared { warm_prepared result ≡ self.entry.prepared }
    {
        let ElfResolver {
            alloc: _,
            bundle,
            parser,
            debug,
            prepared,
        } = self;
        Warm {
            elf: parser.into_warm(),
            debug: warm_debug(&bundle, debug),
            prepared,
        }
    }

    /// A resolver of the bundle with its debug information. The frame is read: the debug sections of the debug file and of
    /// the supplementary file, the sections of the package, and the headers of all units (DWARF 5 section 7.5.1). Refused
    /// by the first mark of the frame: InvalidData, InvalidInput, InvalidDwarf or Unsupported.
    pub fn from_bundle<O: Orders>(
        alloc: Global,
        orders: &mut O,
        bundle: &Bundle<'b>,
    ) -> Result<ElfResolver<'b>>
        ensures frame { Gives (λ _. tt) result (framed (bundle_view bundle.now)) }
        ensures images { IfOk result (λ r. r.images ≡ bundle_view bundle.now) }
        ensures has_debug { IfOk result (λ r. has_debug r ≡ true) }
        ensures accepted { IfOk result (λ r. IfSome r.units (AnnouncedOrdered O.pair_places)) }
        ensures cold { IfOk result (λ r. IfSome r.units AreCold) }
        ensures is_prepared { IfOk result (λ r. r.prepared ≡ false) }
        ensures kinds { IfErr result (λ e. IsMemoryOrFormat e.kind) }
    {
        let file = bundle.debug_file();
        let mut parser = ElfParser::from_mem(alloc, file.image, file.module);
        let debug = DebugInfo::read(alloc, orders, &mut parser, bundle)?;
        Ok(ElfResolver {
            alloc,
            bundle: *bundle,
            parser,
            debug: Some(debug),
            prepared: false,
        })
    }

    /// A resolver of the image's symbols alone; reads nothing.
    pub fn from_bundle_elf(alloc: Global, bundle: &Bundle<'b>) -> ElfResolver<'b>
        ensures images { result.images ≡ bundle_view bundle.now }
        ensures units { result.units ≡ None }
        ensures is_prepared { result.prepared ≡ false }
    {
        ElfResolver {
            alloc,
            bundle: *bundle,
            parser: ElfParser::from_mem(alloc, bundle.image, bundle.module),
            debug: None,
            prepared: false,
        }
    }

    /// The symbol of an address. With debug information: the function that covers it, else the symbol of the debug file
    /// that does, with the place in the sources and the inlined calls as `opts` asks. Without: the symbol of the image.
    /// Refused by the first mark that the search meets.
    pub fn find_sym<O: Orders>(
        &mut self,
        alloc: Global,
        orders: &mut O,
        addr: u64,
        opts: &FindSymOpts,
    ) -> Result<Answer<'b>>
        ensures value { Gives answer_view result
            (answer_of self.old.images (has_debug self.old) addr opts.now) }
        ensures stays { Stays self.old self.new }
        ensures kinds { IfErr result (λ e. IsMemoryOrFormat e.kind) }
    {
        find_sym(
            alloc,
            orders,
            &self.bundle,
            &mut self.parser,
            &mut self.debug,
            addr,
            opts,
        )
    }
}
