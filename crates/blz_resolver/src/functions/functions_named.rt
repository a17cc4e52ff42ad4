//! The functions of a name, as they are listed.
ghost use Rattle.std.specs.Prelude.{◌≡◌, true, map};
ghost use Rattle.std.specs.Option.{unwrap_or};
ghost use Rattle.blz_model.specs.Part.{Gives, Exactly, all_good};
ghost use Rattle.blz_elf.specs.Infos.{info_view};
ghost use Rattle.blz_index.specs.UnitsWarm.{functions_kept, AllKept};
ghost use Rattle.blz_resolver.specs.AddressAnswers.{size_of};
ghost use Rattle.blz_bundle.specs.BundleViews.{bundle_view};
ghost use Rattle.blz_resolver.specs.FunctionNames.{place_if};
ghost use Rattle.blz_resolver.specs.BookAnswers.{listed_read, info_read, infos_read};
ghost use Rattle.blz_resolver.specs.Reading.{Reads, Keeps};
ghost use Rattle.blz_resolver.specs.Sources.{IsOfDebugFile};

use crate::answers::book_reader::BookReader;
use crate::functions::function::{begin_of, name_text, size_of};
use blz_bytes::Orders;
use blz_elf::{ElfParser, FindAddrOpts, SymInfo, SymInfos, SymType};
use blz_error::Result;
use blz_index::{Function, Units};
use std::alloc::Global;

// The size of a function as it is listed: 0 where it is not known.
fn listed_size(function: &Function) -> u64
    ensures { result ≡ unwrap_or (size_of function.now.bounds) 0 }
{
    size_of(function.bounds).unwrap_or(0)
}

impl<'b> BookReader<'_, 'b> {
    // The place of some bytes in the image's file, where it is asked; takes no memory.
    #[tactic(auto, unfolding(crate::specs::FunctionNames::place_if))]
    fn place_if(&self, alloc: Global, asked: bool, addr: u64, size: u64) -> Result<Option<u64>>
        ensures { Exactly (λ o. o) result
            (place_if asked (bundle_view self.now.bundle) addr size) }
    {
        if !asked {
            return Ok(None);
        }
        let mut parser = ElfParser::from_mem(alloc, self.bundle.image, self.bundle.module);
        parser.find_file_offset(addr, size)
    }

    /// A function as it is listed; takes no memory.
    #[tactic(auto, unfolding(crate::specs::FunctionNames::function_info, crate::specs::FunctionNames::info_named))]
    pub fn function_info(
        &self,
        alloc: Global,
        asked: bool,
        function: &Function,
    ) -> Result<SymInfo<'b>>
        ensures { Exactly info_view result (listed_read self.now asked function.now) }
    {
        let name = name_text(&self.dwarf.texts, function.name)?;
        let addr = begin_of(function.bounds);
        let size = listed_size(function);
        let file_offset = self.place_if(alloc, asked, addr, size)?;
        Ok(SymInfo {
            name,
            addr,
            size: Some(size),
            sym_type: SymType::Function,
            file_offset,
            module: self.bundle.module,
        })
    }

    #[tactic(auto, unfolding(crate::specs::FunctionNames::numbered_info))]
    fn numbered_info(
        &self,
        alloc: Global,
        units: &Units,
        asked: bool,
        at: (usize, usize),
    ) -> Result<SymInfo<'b>>
        requires reads { Reads self.now units.now }
        requires kept { functions_kept units.now at.0 ≡ true }
        ensures { Exactly info_view result (info_read self.now units.now asked at) }
    {
        let function = self.function_numbered(units, at)?;
        self.function_info(alloc, asked, &function)
    }

    fn infos(
        &self,
        alloc: Global,
        units: &Units,
        asked: bool,
        found: &[(usize, usize)],
    ) -> Result<SymInfos<'b>>
        requires reads { Reads self.now units.now }
        requires kept { AllKept units.now found.now }
        ensures { Gives (λ v. v) result
            (all_good (map (info_read self.now units.now asked) found.now)) }
    {
        let mut infos = Vec::with_capacity(alloc, found.len())?;
        for at in found {
            infos.push(self.numbered_info(alloc, units, asked, *at)?)?;
        }
        Ok(SymInfos::from_vec(infos))
    }

    /// Of each unit the first function of a name, and where there is none the symbols of the debug file, whose parser is
    /// given.
    #[tactic(auto, unfolding(crate::specs::FunctionNames::addresses_in, crate::specs::FunctionNames::infos_or_symbols))]
    pub fn find_addr<O: Orders>(
        &self,
        alloc: Global,
        orders: &mut O,
        units: &mut Units,
        parser: &mut ElfParser<'b>,
        name: &str,
        opts: &FindAddrOpts,
    ) -> Result<SymInfos<'b>>
        requires reads { Reads self.now units.old }
        requires parser { IsOfDebugFile (bundle_view self.now.bundle) parser.old }
        ensures value { Gives (λ v. v) result
            (infos_read self.now units.old name.now opts.now.file_offset) }
        ensures keeps { Keeps self.now units.old units.new }
        ensures same { parser.new ≡ parser.old }
    {
        let found = units.find_name(alloc, orders, &self.dwarf, name)?;
        if found.is_empty() {
            return parser.find_addr(alloc, orders, name, opts);
        }
        self.infos(alloc, units, opts.file_offset, &found)
    }
}
