//! The listing of all symbols of an image.
ghost use Rattle.std.specs.Prelude.{◌≡◌, false};
ghost use Rattle.blz_elf.specs.Listings.{ShowsAll, image_symbols};

use crate::find_addr_opts::FindAddrOpts;
use crate::parser::ElfParser;
use crate::show::show_all;
use crate::visit::Visit;
use blz_bytes::Orders;
use blz_error::Result;
use std::alloc::Global;

impl ElfParser<'_> {
    /// Shows the defined symbols of a type, in table order: those of `.symtab`, then those of `.dynsym` that `.symtab`
    /// does not answer (ELF gABI, Symbol Table). It ends where the visitor breaks. Refused by the first mark of header,
    /// section table, section names, a table, its names and the infos, once all before it was shown: InvalidData,
    /// InvalidInput or Unsupported.
    #[tactic(auto, unfolding(blz_symbols::specs::NameRule::image_symbol_names, blz_image::specs::SymbolTables::image_table))]
    pub fn for_each<O: Orders, V: Visit>(
        &mut self,
        alloc: Global,
        orders: &mut O,
        opts: &FindAddrOpts,
        visit: &mut V,
    ) -> Result<()>
        requires { V.stopped visit.old ≡ false }
        ensures shows { ShowsAll
            (image_symbols self.old.image opts.now.sym_type opts.now.file_offset)
            (V.shown visit.old) (V.shown visit.new) (V.stopped visit.new) result }
        ensures same { self.new ≡ self.old }
    {
        let parts = self.parts()?;
        show_all(
            alloc,
            orders,
            &parts,
            &mut self.warm.symtab,
            &mut self.warm.dynsym,
            &mut self.warm.symtab_names,
            &mut self.warm.dynsym_names,
            opts,
            visit,
        )
    }
}
