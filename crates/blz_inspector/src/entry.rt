//! A file that was opened, with what was read of it.
ghost use Rattle.std.specs.Prelude.{◌≡◌, false, IfOk};
ghost use Rattle.blz_model.specs.Part.{Gives};
ghost use Rattle.blz_elf.specs.Listings.{ShowsAll};
ghost use Rattle.blz_inspector.specs.Entries.{same_asked, same_stamp};
ghost use Rattle.blz_inspector.specs.Names.{found_in, listed_in};
ghost use Rattle.blz_inspector.specs.SourceViews.{elf_asked};

use crate::found::Found;
use crate::lookup::{found_of, resolver_of, with_places};
use crate::source::Elf;
use blz_bundle::OwnedBundle;
use blz_bytes::Orders;
use blz_elf::Visit;
use blz_error::Result;
use blz_links::Stamp;
use blz_resolver::Warm;
use std::alloc::{AllocError, Global};
use std::marker::Model;

/// A file as it was opened.
#[derive(Drop)]
pub(crate) struct Entry {
    path: String,
    debug_syms: bool,
    stamp: Stamp,
    bundle: OwnedBundle,
    // what was read of the bundle, which each call takes out and puts back
    warm: Option<Warm>,
}

impl Model for Entry {
    ghost use Rattle.std.specs.Prelude.{string_bytes};
    ghost use Rattle.blz_inspector.specs.Entries.{Asked, Opened};
    ghost use Rattle.blz_inspector.specs.WarmEntries.{IsWarmIf};

    ghost Value = { Asked × Opened };

    ghost view = { λ e. (record { path = string_bytes e.path; debug_syms = e.debug_syms }, record { stamp = e.stamp; images = e.bundle }) };

    ghost invariant = { λ e. IsWarmIf e.bundle e.debug_syms e.warm };
}

impl Entry {
    /// A file that was opened at a stamp, of which nothing was read.
    pub fn new(
        alloc: Global,
        elf: &Elf,
        stamp: Stamp,
        bundle: OwnedBundle,
    ) -> std::result::Result<Entry, AllocError>
        ensures { IfOk result
            (λ e. e ≡ (elf_asked elf.now, record { stamp = stamp; images = bundle })) }
    {
        Ok(Entry {
            path: String::from_str(alloc, elf.path.as_str())?,
            debug_syms: elf.debug_syms,
            stamp,
            bundle,
            warm: None,
        })
    }

    /// Whether the file is the one that is asked.
    pub fn is_of(&self, elf: &Elf) -> bool
        ensures { result ≡ same_asked (elf_asked elf.now) self.now.0 }
    {
        elf.path == self.path && elf.debug_syms == self.debug_syms
    }

    /// Whether the file was opened at a stamp.
    pub fn is_at(&self, stamp: Stamp) -> bool
        ensures { result ≡ same_stamp self.now.1.stamp stamp }
    {
        self.stamp == stamp
    }

    /// The infos of each name, in the order of the names.
    #[tactic(auto, unfolding(crate::specs::Names::found_in))]
    pub fn lookup<O: Orders>(
        &mut self,
        alloc: Global,
        orders: &mut O,
        names: &[String],
    ) -> Result<Found>
        ensures value { Gives (λ f. f) result
            (found_in self.old.0.debug_syms names.now self.old.1.images) }
        ensures same { self.new ≡ self.old }
    {
        let warm = self.warm.take();
        let bundle = self.bundle.bundle();
        let mut resolver = resolver_of(alloc, orders, &bundle, self.debug_syms, warm)?;
        let found = found_of(alloc, orders, &mut resolver, names);
        self.warm = Some(resolver.into_warm());
        found
    }

    /// Shows all symbols.
    pub fn for_each<O: Orders, V: Visit>(
        &mut self,
        alloc: Global,
        orders: &mut O,
        visit: &mut V,
    ) -> Result<()>
        requires { V.stopped visit.old ≡ false }
        ensures shows { ShowsAll (listed_in self.old.0.debug_syms self.old.1.images)
            (V.shown visit.old) (V.shown visit.new) (V.stopped visit.new) result }
        ensures same { self.new ≡ self.old }
    {
        let warm = self.warm.take();
        let bundle = self.bundle.bundle();
        let mut resolver = resolver_of(alloc, orders, &bundle, self.debug_syms, warm)?;
        let shown = resolver.for_each(alloc, orders, &with_places(), visit);
        self.warm = Some(resolver.into_warm());
        shown
    }
}
