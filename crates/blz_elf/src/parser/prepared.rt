//! An image whose parts are all kept.
ghost use Rattle.std.specs.Prelude.{◌≡◌, true, IfErr, IfOk};
ghost use Rattle.std.specs.Option.{option_map};
ghost use Rattle.blz_model.specs.Part.{Exactly};
ghost use Rattle.blz_elf.specs.AnswerView.{answer_view};
ghost use Rattle.blz_symbols.specs.SymbolRule.{image_symbol};
ghost use Rattle.blz_elf.specs.Warm.{Fits, warm_prepared, warm_relocated};

use crate::answer::Answer;
use crate::fill::{fill, look_both, sort_table};
use crate::kept_names::fill_names;
use crate::parser::ElfParser;
use crate::warm::ElfWarm;
use blz_bytes::Orders;
use blz_error::{Error, Result, Str};
use blz_image::image::Image;
use blz_image::symbols::TableKind;
use blz_model::Cache;
use std::alloc::{AllocError, Global};

impl<'b> ElfParser<'b> {
    /// Puts each part into a cache, as its value or its mark's kind, for `find_sym_prepared`.
    #[tactic(auto, unfolding(blz_image::specs::SymbolTables::image_table))]
    pub fn prepare<O: Orders>(
        &mut self,
        alloc: Global,
        orders: &mut O,
    ) -> std::result::Result<(), AllocError>
        ensures image { self.new.image ≡ self.old.image }
        ensures module_name { self.new.module_name ≡ self.old.module_name }
        ensures relocated { self.new.relocated ≡ self.old.relocated }
        ensures prepared { IfOk result (λ _. self.new.prepared ≡ true) }
        ensures refused { IfErr result (λ _. self.new.prepared ≡ self.old.prepared) }
    {
        let read = self.frame();
        fill(&mut self.warm, self.image, read);
        sort_table(
            alloc,
            orders,
            self.image,
            TableKind::Symtab,
            &mut self.warm.symtab,
        )?;
        sort_table(
            alloc,
            orders,
            self.image,
            TableKind::Dynsym,
            &mut self.warm.dynsym,
        )?;
        fill_names(
            alloc,
            orders,
            self.image,
            &self.warm.frame,
            &mut self.warm.symtab,
            &mut self.warm.dynsym,
            &mut self.warm.symtab_names,
            &mut self.warm.dynsym_names,
        )?;
        self.warm.prepared = true;
        Ok(())
    }

    /// The symbol of an address, as `find_sym` has it, from what is kept: it takes no memory.
    #[tactic(auto, unfolding(blz_symbols::specs::SymbolRule::image_symbol, blz_image::specs::SymbolTables::image_table))]
    pub fn find_sym_prepared(&self, addr: u64) -> Result<Answer<'b>>
        requires { self.now.prepared ≡ true }
        ensures { Exactly answer_view result
            (image_symbol self.now.image self.now.module_name addr) }
    {
        match &self.warm.frame {
            Cache::Value(frame) => look_both(
                self.warm.alloc,
                self.module,
                &Image::open(self.image, *frame),
                &self.warm.symtab,
                &self.warm.dynsym,
                addr,
            ),
            Cache::Mark(kind) => Err(Error::new(*kind, Str::fixed("names"))),
            Cache::Empty => unreachable!(),
        }
    }

    /// What is kept, without the image.
    pub fn into_warm(self) -> ElfWarm
        ensures fits { Fits self.entry.image result }
        ensures prepared { warm_prepared result ≡ self.entry.prepared }
        ensures relocated { warm_relocated result ≡ self.entry.relocated }
    {
        let ElfParser {
            image: _,
            module: _,
            warm,
        } = self;
        warm
    }

    /// A parser of the image that the kept parts fit.
    pub fn from_warm(image: &'b [u8], module: Option<&'b str>, warm: ElfWarm) -> ElfParser<'b>
        requires { Fits image.now warm }
        ensures image { result.image ≡ image.now }
        ensures module_name { result.module_name ≡ option_map (λ m. m.now) «module».entry }
        ensures prepared { result.prepared ≡ warm_prepared warm }
        ensures relocated { result.relocated ≡ warm_relocated warm }
    {
        ElfParser {
            image,
            module,
            warm,
        }
    }
}
