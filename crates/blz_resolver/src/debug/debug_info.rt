//! The debug information of a bundle with its units.
ghost use Rattle.std.specs.Prelude.{◌≡◌, ◌<◌, ◌≤◌, ◌-◌, true, false, length, map, IfErr, IfOk, option_map};
ghost use Rattle.blz_error.specs.declared.kind.ErrorKind.TheVariants.{OutOfMemory};
ghost use Rattle.std.specs.FinMap as finite;
ghost use Rattle.blz_model.specs.Part.{Gives, Exactly, all_good};
ghost use Rattle.blz_elf.specs.AnswerView.{answer_view};
ghost use Rattle.blz_elf.specs.Asked.{asks_code_info, asks_inlined_fns};
ghost use Rattle.blz_elf.specs.Listings.{ShowsAll};
ghost use Rattle.blz_info.specs.Marks.{or_invalid};
ghost use Rattle.blz_units.specs.UnitTables.{units_of};
ghost use Rattle.blz_index.specs.UnitsWarm.{AnnouncedOrdered, units_table, units_prepared, lines_kept, UnitsFit, UnitsGrow, AreCold};
ghost use Rattle.blz_resolver.specs.AddressAnswers.{answer_of};
ghost use Rattle.blz_resolver.specs.Books.{files_in, frame_of};
ghost use Rattle.blz_bundle.specs.BundleViews.{bundle_view};
ghost use Rattle.blz_resolver.specs.FileViews.{images_view};
ghost use Rattle.blz_resolver.specs.FunctionNames.{addresses_of, is_variable, listing_in};
ghost use Rattle.blz_resolver.specs.Looks.{LooksFewIn};
ghost use Rattle.blz_resolver.specs.InfoViews.{info_book, KeepsBook};
ghost use Rattle.blz_resolver.specs.Resolver.{HasBook};
ghost use Rattle.blz_resolver.specs.RowsViews.{rows_view};
ghost use Rattle.blz_resolver.specs.Scan.{answers_of};
ghost use Rattle.blz_resolver.specs.UnitRowsRead.{rows_of, unit_count_of};
ghost use Rattle.blz_resolver.specs.Sources.{IsOfDebugFile};

use crate::answers::book_reader::BookReader;
use crate::debug::debug_files::DebugFiles;
use crate::fault::unsupported;
use crate::rows::UnitRows;
use blz_bundle::Bundle;
use blz_bytes::{Orders, Steps};
use blz_elf::{Answer, ElfParser, FindAddrOpts, FindSymOpts, SymInfos, SymType, Visit};
use blz_error::Result;
use blz_index::Units;
use std::alloc::Global;
use std::sync::ledger::Ledger;

/// The files of a bundle that debug information is read from, and their units, which keep what was read.
#[derive(Drop)]
pub(crate) struct DebugInfo<'b> {
    pub files: DebugFiles<'b>,
    pub units: Units,
}

fn is_variable(sym_type: SymType) -> bool
    ensures { result ≡ is_variable sym_type }
{
    match sym_type {
        SymType::Variable => true,
        SymType::Undefined | SymType::Function => false,
    }
}

fn read_units<O: Orders>(alloc: Global, orders: &mut O, files: &DebugFiles<'_>) -> Result<Units>
    requires { files.now.none ≡ finite.empty }
    ensures value { Gives units_table result
        (or_invalid (units_of (files_in (images_view files.now)))) }
    ensures fits { IfOk result (UnitsFit (files_in (images_view files.now))) }
    ensures accepted { IfOk result (AnnouncedOrdered O.pair_places) }
    ensures cold { IfOk result AreCold }
{
    let dwarf = files.dwarf();
    Units::parse(alloc, orders, &dwarf)
}

impl<'b> DebugInfo<'b> {
    /// Reads the files and the headers of their units; the parser is the one of the debug file. Refused by the first mark
    /// of the frame.
    #[tactic(auto, unfolding(crate::specs::Books::frame_of))]
    pub fn read<O: Orders>(
        alloc: Global,
        orders: &mut O,
        parser: &mut ElfParser<'b>,
        bundle: &Bundle<'b>,
    ) -> Result<DebugInfo<'b>>
        requires { IsOfDebugFile (bundle_view bundle.now) parser.old }
        ensures frame { Gives (info_book (bundle_view bundle.now)) result
            (frame_of (bundle_view bundle.now)) }
        ensures fits { IfOk result (HasBook (bundle_view bundle.now)) }
        ensures accepted { IfOk result (λ d. AnnouncedOrdered O.pair_places d.units) }
        ensures cold { IfOk result (λ d. AreCold d.units) }
        ensures same { parser.new ≡ parser.old }
    {
        let files = DebugFiles::read(alloc, parser, bundle)?;
        let units = read_units(alloc, orders, &files)?;
        Ok(DebugInfo { files, units })
    }

    /// The answer of an address; the parser is the one of the debug file. Refused by the first mark that the search meets.
    pub fn find_sym<O: Orders>(
        &mut self,
        alloc: Global,
        orders: &mut O,
        bundle: &Bundle<'b>,
        parser: &mut ElfParser<'b>,
        addr: u64,
        opts: &FindSymOpts,
    ) -> Result<Answer<'b>>
        requires fits { HasBook (bundle_view bundle.now) self.old }
        requires parser { IsOfDebugFile (bundle_view bundle.now) parser.old }
        ensures value { Gives answer_view result
            (answer_of (bundle_view bundle.now) true addr opts.now) }
        ensures keeps { KeepsBook (bundle_view bundle.now) self.old self.new }
        ensures same { parser.new ≡ parser.old }
    {
        let reader = BookReader {
            bundle: *bundle,
            dwarf: self.files.dwarf(),
        };
        reader.answer(alloc, orders, &mut self.units, parser, addr, opts)
    }

    /// The answer of each address, as `find_sym` has it; the sections are taken once for all of them.
    pub fn find_syms<O: Orders>(
        &mut self,
        alloc: Global,
        orders: &mut O,
        bundle: &Bundle<'b>,
        parser: &mut ElfParser<'b>,
        addrs: &[u64],
        opts: &FindSymOpts,
    ) -> Result<Vec<Answer<'b>>>
        requires fits { HasBook (bundle_view bundle.now) self.old }
        requires parser { IsOfDebugFile (bundle_view bundle.now) parser.old }
        ensures value { Gives (λ v. map answer_view v.items) result
            (all_good (map (answers_of (bundle_view bundle.now) true opts.now) addrs.now)) }
        ensures one_each { IfOk result (λ v. length v.items ≡ length addrs.now) }
        ensures keeps { KeepsBook (bundle_view bundle.now) self.old self.new }
        ensures same { parser.new ≡ parser.old }
    {
        let reader = BookReader {
            bundle: *bundle,
            dwarf: self.files.dwarf(),
        };
        reader.answers(alloc, orders, &mut self.units, parser, addrs, opts)
    }

    /// The functions of a name, and where there are none the symbols of the debug file, whose parser is given.
    pub fn find_addr<O: Orders>(
        &mut self,
        alloc: Global,
        orders: &mut O,
        bundle: &Bundle<'b>,
        parser: &mut ElfParser<'b>,
        name: &str,
        opts: &FindAddrOpts,
    ) -> Result<SymInfos<'b>>
        requires fits { HasBook (bundle_view bundle.now) self.old }
        requires parser { IsOfDebugFile (bundle_view bundle.now) parser.old }
        ensures value { Gives (λ v. v) result
            (addresses_of (bundle_view bundle.now) true name.now opts.now) }
        ensures keeps { KeepsBook (bundle_view bundle.now) self.old self.new }
        ensures same { parser.new ≡ parser.old }
    {
        if is_variable(opts.sym_type) {
            return Err(unsupported("variables of debug information"));
        }
        let reader = BookReader {
            bundle: *bundle,
            dwarf: self.files.dwarf(),
        };
        reader.find_addr(alloc, orders, &mut self.units, parser, name, opts)
    }

    /// Shows all functions that have a name.
    pub fn for_each<O: Orders, V: Visit>(
        &mut self,
        alloc: Global,
        orders: &mut O,
        bundle: &Bundle<'b>,
        opts: &FindAddrOpts,
        visit: &mut V,
    ) -> Result<()>
        requires fits { HasBook (bundle_view bundle.now) self.old }
        requires goes_on { V.stopped visit.old ≡ false }
        ensures shows { ShowsAll (listing_in (bundle_view bundle.now) true opts.now)
            (V.shown visit.old) (V.shown visit.new) (V.stopped visit.new) result }
        ensures keeps { KeepsBook (bundle_view bundle.now) self.old self.new }
    {
        if is_variable(opts.sym_type) {
            return Err(unsupported("variables of debug information"));
        }
        let reader = BookReader {
            bundle: *bundle,
            dwarf: self.files.dwarf(),
        };
        reader.for_each(alloc, orders, &mut self.units, opts.file_offset, visit)
    }

    /// How many units are kept.
    pub fn unit_count(&self, bundle: &Bundle<'b>) -> usize
        requires { HasBook (bundle_view bundle.now) self.now }
        ensures { result ≡ unit_count_of (bundle_view bundle.now) true }
    {
        self.units.len()
    }

    /// Reads the lines of a unit, as far as they can be read.
    pub fn fill_rows<O: Orders>(
        &mut self,
        alloc: Global,
        orders: &mut O,
        bundle: &Bundle<'b>,
        unit: usize,
    ) -> Result<()>
        requires fits { HasBook (bundle_view bundle.now) self.old }
        requires there { unit < length (units_table self.old.units).kept }
        ensures keeps { KeepsBook (bundle_view bundle.now) self.old self.new }
        ensures filled { IfOk result (λ _. lines_kept self.new.units unit ≡ true) }
        ensures want { IfErr result (λ e. e.kind ≡ OutOfMemory) }
    {
        let reader = BookReader {
            bundle: *bundle,
            dwarf: self.files.dwarf(),
        };
        reader.fill_lines(alloc, orders, &mut self.units, unit)
    }

    /// The lines of a unit that were read.
    pub fn rows(&self, bundle: &Bundle<'b>, unit: usize) -> Result<Option<UnitRows<'_, 'b>>>
        requires fits { HasBook (bundle_view bundle.now) self.now }
        requires filled { lines_kept self.now.units unit ≡ true }
        ensures { Exactly (λ o. option_map rows_view o) result
            (rows_of (bundle_view bundle.now) true unit) }
    {
        let dwarf = self.files.dwarf();
        let lines = self.units.lines(unit)?;
        Ok(UnitRows::with_texts(lines, dwarf.texts))
    }

    /// Reads all units, as far as they can be read. Only want of memory is refused.
    pub fn prepare<O: Orders>(
        &mut self,
        alloc: Global,
        orders: &mut O,
        bundle: &Bundle<'b>,
    ) -> Result<()>
        requires { HasBook (bundle_view bundle.now) self.old }
        ensures has { HasBook (bundle_view bundle.now) self.new }
        ensures grows { UnitsGrow O.pair_places self.old.units self.new.units }
        ensures is_prepared { IfOk result (λ _. units_prepared self.new.units ≡ true) }
        ensures stays { units_prepared self.old.units ≡ true
            → units_prepared self.new.units ≡ true }
        ensures want { IfErr result (λ e. e.kind ≡ OutOfMemory) }
    {
        let dwarf = self.files.dwarf();
        match self.units.prepare(alloc, orders, &dwarf) {
            Ok(()) => Ok(()),
            Err(_) => Err(self.units.want()),
        }
    }

    /// The answer of an address without its inlined calls from what was prepared; the parser is the one of the debug file.
    pub fn find_sym_prepared<L: Ledger>(
        &self,
        alloc: Global,
        bundle: &Bundle<'b>,
        parser: &ElfParser<'b>,
        addr: u64,
        opts: &FindSymOpts,
        steps: &mut Steps<L>,
    ) -> Result<Answer<'b>>
        requires fits { HasBook (bundle_view bundle.now) self.now }
        requires parser { IsOfDebugFile (bundle_view bundle.now) parser.now }
        requires is_prepared { units_prepared self.now.units ≡ true }
        requires symbols { parser.now.prepared ≡ true }
        requires opts { asks_inlined_fns opts.now ≡ false }
        ensures value { Exactly answer_view result
            (answer_of (bundle_view bundle.now) true addr opts.now) }
        ensures cost { asks_code_info opts.now ≡ false
            → LooksFewIn (bundle_view bundle.now) self.now.units addr (steps.new - steps.old) }
        ensures later { steps.old ≤ steps.new }
    {
        let reader = BookReader {
            bundle: *bundle,
            dwarf: self.files.dwarf(),
        };
        reader.answer_prepared(alloc, &self.units, parser, addr, opts, steps)
    }
}
