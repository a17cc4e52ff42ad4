//! Shows the symbols of a listing.
ghost use Rattle.std.specs.Prelude.{◌≡◌, true, false, List, map};
ghost use Rattle.blz_model.specs.Part.{Part, Gives};
ghost use Rattle.blz_model.specs.Kept.{is_kept};
ghost use Rattle.blz_image.specs.declared.symbols.TableKind.TheVariants.{Symtab, Dynsym};
ghost use Rattle.blz_elf.specs.Listings.{Shows, ShowsAll, infos_of, listing_if, all_symbols};
ghost use Rattle.blz_symbols.specs.NameRule.{Named};
ghost use Rattle.blz_symbols.specs.NameSteps.{named_view};
ghost use Rattle.blz_symbols.specs.NameOrders.{NamesKept};
ghost use Rattle.blz_symbols.specs.Tables.{TableKept};
ghost use Rattle.blz_elf.specs.Warm.{is_sorted};

use crate::find_addr_opts::FindAddrOpts;
use crate::infos::info_of;
use crate::kept_names::{dynamic_list, static_list};
use crate::visit::Visit;
use blz_bytes::Orders;
use blz_error::Result;
use blz_image::image::Image;
use blz_model::Cache;
use blz_relocations::Flow;
use blz_symbols::name_order::KeptNames;
use blz_symbols::names::{NamedSymbol, Wanted};
use blz_symbols::table::Table;
use std::alloc::Global;

/// Shows symbols until one is broken or the visitor breaks.
pub fn show<'b, V: Visit>(
    visit: &mut V,
    image: &Image<'b>,
    with_place: bool,
    listed: &[NamedSymbol<'b>],
) -> Result<Flow>
    requires { V.stopped visit.old ≡ false }
    ensures { Shows (infos_of image.now with_place (map named_view listed.now)) (V.shown visit.old)
        (V.shown visit.new) (V.stopped visit.new) result }
{
    for named in listed {
        let info = info_of(image, None, with_place, named)?;
        if let Flow::Break = visit.visit(&info) {
            return Ok(Flow::Break);
        }
    }
    Ok(Flow::Continue)
}

/// Shows what was read, or tells why it could not be.
fn show_read<'b, V: Visit>(
    visit: &mut V,
    image: &Image<'b>,
    with_place: bool,
    read: Result<Vec<NamedSymbol<'b>>>,
) -> Result<Flow>
    requires { V.stopped visit.old ≡ false }
    ensures { (p : Part (List Named)) → Gives (λ v. map named_view v.items) read.entry p
        → Shows (listing_if (infos_of image.now with_place) p) (V.shown visit.old)
        (V.shown visit.new) (V.stopped visit.new) result }
{
    match read {
        Ok(listed) => show(visit, image, with_place, &listed),
        Err(e) => Err(e),
    }
}

/// Shows the symbols of `.symtab`, then those of `.dynsym` that it does not answer, and keeps tables and names.
pub fn show_all<'b, O: Orders, V: Visit>(
    alloc: Global,
    orders: &mut O,
    image: &Image<'b>,
    symtab: &mut Cache<Table>,
    dynsym: &mut Cache<Table>,
    symtab_names: &mut Cache<KeptNames>,
    dynsym_names: &mut Cache<KeptNames>,
    opts: &FindAddrOpts,
    visit: &mut V,
) -> Result<()>
    requires goes_on { V.stopped visit.old ≡ false }
    requires symtab { TableKept Symtab image.now symtab.old }
    requires dynsym { TableKept Dynsym image.now dynsym.old }
    requires symtab_names { NamesKept Symtab image.now symtab_names.old }
    requires dynsym_names { NamesKept Dynsym image.now dynsym_names.old }
    ensures symtab { TableKept Symtab image.now symtab.new }
    ensures dynsym { TableKept Dynsym image.now dynsym.new }
    ensures symtab_sorted { is_sorted symtab.old ≡ true → is_sorted symtab.new ≡ true }
    ensures dynsym_sorted { is_sorted dynsym.old ≡ true → is_sorted dynsym.new ≡ true }
    ensures symtab_names { NamesKept Symtab image.now symtab_names.new }
    ensures dynsym_names { NamesKept Dynsym image.now dynsym_names.new }
    ensures symtab_names_before { is_kept symtab_names.old ≡ true
        → is_kept symtab_names.new ≡ true }
    ensures dynsym_names_before { is_kept dynsym_names.old ≡ true
        → is_kept dynsym_names.new ≡ true }
    ensures shows { ShowsAll (all_symbols opts.now.sym_type opts.now.file_offset image.now)
        (V.shown visit.old) (V.shown visit.new) (V.stopped visit.new) result }
{
    let wanted = Wanted::OfType(opts.sym_type);
    let own = static_list(alloc, orders, image, symtab, symtab_names, &wanted);
    if let Flow::Break = show_read(visit, image, opts.file_offset, own)? {
        return Ok(());
    }
    let theirs = dynamic_list(alloc, orders, image, symtab, dynsym, dynsym_names, &wanted);
    show_read(visit, image, opts.file_offset, theirs)?;
    Ok(())
}
