//! Files that are asked again and again.
ghost use Rattle.std.specs.Prelude.{◌≡◌, ◌⊎◌, ◌≤◌, ◌<◌, [], Some, false, length, slice_get, IfOk, IfErr, OnErr};
ghost use Rattle.blz_model.specs.Part.{Gives};
ghost use Rattle.blz_elf.specs.Listings.{ShowsAll};
ghost use Rattle.blz_links.specs.Counts.{Rose};
ghost use Rattle.blz_inspector.specs.Entries.{Asked, Opened, IsFound, IsPlace, IsStale, kept_of, with_opened};
ghost use Rattle.blz_inspector.specs.Names.{found_in, listed_in};
ghost use Rattle.blz_inspector.specs.SourceViews.{asked_of, elf_asked};
ghost use Rattle.blz_inspector.specs.Uses.{GivesUsed, IsRefused, IsStampOf, RefusesFirst, ShowsNothing, ShowsUsed, UsesAt, told_by};

use crate::entry::Entry;
use crate::found::Found;
use crate::opening::opened;
use crate::source::{Elf, Source};
use blz_bytes::Orders;
use blz_elf::Visit;
use blz_error::Result;
use blz_links::{Files, Stamp};
use std::alloc::{AllocError, Global};
use std::marker::Model;

/// The files that were opened, each for its path and for whether its debug information is asked.
#[derive(Drop)]
pub struct Inspector {
    entries: Vec<Entry>,
}

impl Model for Inspector {
    ghost use Rattle.blz_inspector.specs.Entries.{Entries};

    ghost Value = { Entries };

    ghost view = { λ i. i.entries.items };
}

impl Inspector {
    /// Nothing is kept yet; takes no memory.
    pub fn new(alloc: Global) -> Inspector
        ensures { result ≡ [] }
    {
        Inspector {
            entries: Vec::new(alloc),
        }
    }

    // where a file stands that is kept
    fn find(&self, elf: &Elf) -> Option<usize>
        ensures { IsFound (elf_asked elf.now) self.now result }
    {
        for at in 0..self.entries.len() {
            if self.entries[at].is_of(elf) {
                return Some(at);
            }
        }
        None
    }

    // where a file stands that is kept at a stamp
    fn current(&self, elf: &Elf, stamp: Stamp) -> Option<usize>
        ensures { IsPlace (elf_asked elf.now) stamp self.now result }
    {
        let at = self.find(elf)?;
        if self.entries[at].is_at(stamp) {
            Some(at)
        } else {
            None
        }
    }

    // Puts a file in the place of what was kept of it.
    fn put(&mut self, elf: &Elf, entry: Entry) -> std::result::Result<usize, AllocError>
        requires { entry.0 ≡ elf_asked elf.now }
        ensures there { IfOk result (λ at. slice_get self.new at ≡ Some entry) }
        ensures put { IfOk result
            (λ _. self.new ≡ with_opened (elf_asked elf.now) entry.1 self.old) }
        ensures kept { OnErr result (self.new ≡ self.old) }
    {
        match self.find(elf) {
            Some(at) => {
                self.entries[at] = entry;
                Ok(at)
            }
            None => {
                let at = self.entries.len();
                self.entries.push(entry)?;
                Ok(at)
            }
        }
    }

    // Opens a file that is not kept at its stamp, and says where it stands then.
    fn open<F: Files>(
        &mut self,
        alloc: Global,
        files: &mut F,
        elf: &Elf,
        stamp: Stamp,
    ) -> Result<usize>
        requires stamp { IsStampOf (told_by (F.contents files.old) (F.stamps files.old))
            (elf_asked elf.now).path stamp }
        requires stale { IsStale stamp (kept_of (elf_asked elf.now) self.old) }
        ensures used { IfOk result
            (λ at. UsesAt (told_by (F.contents files.old) (F.stamps files.old))
            (elf_asked elf.now) at self.old self.new) }
        ensures refused { IfErr result
            (λ e. IsRefused e.kind (Rose (F.faults files.old) (F.faults files.new))
            (told_by (F.contents files.old) (F.stamps files.old)) (elf_asked elf.now) self.old
            × (self.new ≡ self.old)) }
        ensures contents { F.contents files.new ≡ F.contents files.old }
        ensures stamps { F.stamps files.new ≡ F.stamps files.old }
        ensures count { F.faults files.old ≤ F.faults files.new }
    {
        let bundle = opened(alloc, files, elf)?;
        let entry = Entry::new(alloc, elf, stamp, bundle)?;
        Ok(self.put(elf, entry)?)
    }

    // Where the file stands that is used: as it is kept, where it has the same stamp, else as it is opened.
    fn used<F: Files>(&mut self, alloc: Global, files: &mut F, elf: &Elf) -> Result<usize>
        ensures used { IfOk result
            (λ at. UsesAt (told_by (F.contents files.old) (F.stamps files.old))
            (elf_asked elf.now) at self.old self.new) }
        ensures refused { IfErr result
            (λ e. IsRefused e.kind (Rose (F.faults files.old) (F.faults files.new))
            (told_by (F.contents files.old) (F.stamps files.old)) (elf_asked elf.now) self.old
            × (self.new ≡ self.old)) }
        ensures contents { F.contents files.new ≡ F.contents files.old }
        ensures stamps { F.stamps files.new ≡ F.stamps files.old }
        ensures count { F.faults files.old ≤ F.faults files.new }
    {
        let stamp = files.stamp(elf.path.as_str())?;
        match self.current(elf, stamp) {
            Some(at) => Ok(at),
            None => self.open(alloc, files, elf, stamp),
        }
    }

    fn lookup_at<O: Orders>(
        &mut self,
        alloc: Global,
        orders: &mut O,
        at: usize,
        names: &[String],
    ) -> Result<Found>
        requires { at < length self.old }
        ensures value { (e : Asked × Opened) → slice_get self.old at ≡ Some e
            → Gives (λ f. f) result (found_in e.0.debug_syms names.now e.1.images) }
        ensures same { self.new ≡ self.old }
    {
        self.entries[at].lookup(alloc, orders, names)
    }

    fn for_each_at<O: Orders, V: Visit>(
        &mut self,
        alloc: Global,
        orders: &mut O,
        at: usize,
        visit: &mut V,
    ) -> Result<()>
        requires there { at < length self.old }
        requires goes_on { V.stopped visit.old ≡ false }
        ensures shows { (e : Asked × Opened) → slice_get self.old at ≡ Some e
            → ShowsAll (listed_in e.0.debug_syms e.1.images) (V.shown visit.old)
            (V.shown visit.new) (V.stopped visit.new) result }
        ensures same { self.new ≡ self.old }
    {
        self.entries[at].for_each(alloc, orders, visit)
    }

    fn lookup_elf<F: Files, O: Orders>(
        &mut self,
        alloc: Global,
        files: &mut F,
        orders: &mut O,
        elf: &Elf,
        names: &[String],
    ) -> Result<Found>
        ensures outcome { GivesUsed (λ f. f) result
            (found_in (elf_asked elf.now).debug_syms names.now)
            (told_by (F.contents files.old) (F.stamps files.old))
            (elf_asked elf.now) self.old self.new
            ⊎ RefusesFirst result (Rose (F.faults files.old) (F.faults files.new))
            (told_by (F.contents files.old) (F.stamps files.old))
            (elf_asked elf.now) self.old self.new }
        ensures contents { F.contents files.new ≡ F.contents files.old }
        ensures stamps { F.stamps files.new ≡ F.stamps files.old }
        ensures count { F.faults files.old ≤ F.faults files.new }
    {
        let at = self.used(alloc, files, elf)?;
        self.lookup_at(alloc, orders, at, names)
    }

    /// The symbols of each name, in the order of the names, with their places in the file. The file is used as it is kept,
    /// where its stamp is the same, and else it is opened and kept in place of what was. Refused by a failure of the files
    /// and by the marks of opening, and all is kept as before; else by the first mark of the frame and of `find_addr`.
    pub fn lookup<F: Files, O: Orders>(
        &mut self,
        alloc: Global,
        files: &mut F,
        orders: &mut O,
        src: &Source,
        names: &[String],
    ) -> Result<Found>
        ensures outcome { GivesUsed (λ f. f) result
            (found_in (asked_of src.now).debug_syms names.now)
            (told_by (F.contents files.old) (F.stamps files.old))
            (asked_of src.now) self.old self.new
            ⊎ RefusesFirst result (Rose (F.faults files.old) (F.faults files.new))
            (told_by (F.contents files.old) (F.stamps files.old))
            (asked_of src.now) self.old self.new }
        ensures contents { F.contents files.new ≡ F.contents files.old }
        ensures stamps { F.stamps files.new ≡ F.stamps files.old }
        ensures count { F.faults files.old ≤ F.faults files.new }
    {
        match src {
            Source::Elf(elf) => self.lookup_elf(alloc, files, orders, elf, names),
        }
    }

    /// Shows all symbols of a file, with their places in it, which is used as `lookup` uses it. It ends where the visitor
    /// breaks. Refused as `lookup` is, once all before the mark was shown.
    pub fn for_each<F: Files, O: Orders, V: Visit>(
        &mut self,
        alloc: Global,
        files: &mut F,
        orders: &mut O,
        src: &Source,
        visit: &mut V,
    ) -> Result<()>
        requires { V.stopped visit.old ≡ false }
        ensures outcome { ShowsUsed result (listed_in (asked_of src.now).debug_syms)
            (V.shown visit.old) (V.shown visit.new) (V.stopped visit.new)
            (told_by (F.contents files.old) (F.stamps files.old))
            (asked_of src.now) self.old self.new
            ⊎ ShowsNothing result (V.shown visit.old) (V.shown visit.new) (V.stopped visit.new)
            (Rose (F.faults files.old) (F.faults files.new))
            (told_by (F.contents files.old) (F.stamps files.old))
            (asked_of src.now) self.old self.new }
        ensures contents { F.contents files.new ≡ F.contents files.old }
        ensures stamps { F.stamps files.new ≡ F.stamps files.old }
        ensures count { F.faults files.old ≤ F.faults files.new }
    {
        match src {
            Source::Elf(elf) => {
                let at = self.used(alloc, files, elf)?;
                self.for_each_at(alloc, orders, at, visit)
            }
        }
    }
}
