//! The symbols of a name.
ghost use Rattle.std.specs.Prelude.{◌≡◌};
ghost use Rattle.blz_model.specs.Part.{Gives};
ghost use Rattle.blz_elf.specs.Infos.{image_addresses};
ghost use Rattle.blz_symbols.specs.NameRule.{image_names};

use crate::find_addr_opts::FindAddrOpts;
use crate::infos::infos;
use crate::kept_names::{
    check_kept, dynamic_list, fill_dynamic, fill_static, sort_names, static_list,
};
use crate::parser::ElfParser;
use crate::sym_info::SymInfos;
use blz_bytes::Orders;
use blz_error::Result;
use blz_image::symbols::TableKind;
use blz_symbols::names::Wanted;
use std::alloc::Global;

impl<'b> ElfParser<'b> {
    /// The symbols of a name, defined, in table order: those of `.symtab`, else those of `.dynsym` that `.symtab` does not
    /// answer (ELF gABI, Symbol Table). Refused as `find_section` is, by a broken table, a name that cannot be read, and
    /// with places in the file by a section index outside the table: InvalidData, InvalidInput or Unsupported.
    #[tactic(auto, unfolding(crate::specs::Infos::image_addresses, blz_symbols::specs::NameRule::called_list, blz_symbols::specs::NameRule::image_symbol_names, blz_image::specs::SymbolTables::image_table))]
    pub fn find_addr<O: Orders>(
        &mut self,
        alloc: Global,
        orders: &mut O,
        name: &str,
        opts: &FindAddrOpts,
    ) -> Result<SymInfos<'b>>
        ensures value { Gives (λ v. v) result
            (image_addresses self.old.image self.old.module_name name.now opts.now.file_offset) }
        ensures same { self.new ≡ self.old }
    {
        let parts = self.parts()?;
        let wanted = Wanted::Called(name);
        let own = static_list(
            alloc,
            orders,
            &parts,
            &mut self.warm.symtab,
            &mut self.warm.symtab_names,
            &wanted,
        )?;
        if own.len() != 0 {
            return infos(alloc, &parts, self.module, opts.file_offset, &own);
        }
        let theirs = dynamic_list(
            alloc,
            orders,
            &parts,
            &mut self.warm.symtab,
            &mut self.warm.dynsym,
            &mut self.warm.dynsym_names,
            &wanted,
        )?;
        infos(alloc, &parts, self.module, opts.file_offset, &theirs)
    }

    /// Reads both tables of symbols and their names, and asks for their orders, for later calls. Refused by the first mark of header, section table,
    /// section names, `.symtab`, its names, `.dynsym` and its names.
    #[tactic(auto, unfolding(blz_symbols::specs::NameRule::image_names, blz_symbols::specs::NameRule::image_symbol_names, blz_image::specs::SymbolTables::image_table))]
    pub fn cache<O: Orders>(&mut self, alloc: Global, orders: &mut O) -> Result<()>
        ensures value { Gives (λ u. u) result (image_names self.old.image) }
        ensures same { self.new ≡ self.old }
    {
        let parts = self.parts()?;
        fill_static(
            alloc,
            &parts,
            &mut self.warm.symtab,
            &mut self.warm.symtab_names,
        )?;
        sort_names(
            alloc,
            orders,
            &parts,
            TableKind::Symtab,
            &mut self.warm.symtab_names,
        )?;
        check_kept(&parts, TableKind::Symtab, &self.warm.symtab_names)?;
        fill_dynamic(
            alloc,
            orders,
            &parts,
            &mut self.warm.symtab,
            &mut self.warm.dynsym,
            &mut self.warm.dynsym_names,
        )?;
        sort_names(
            alloc,
            orders,
            &parts,
            TableKind::Dynsym,
            &mut self.warm.dynsym_names,
        )?;
        check_kept(&parts, TableKind::Dynsym, &self.warm.dynsym_names)
    }
}
