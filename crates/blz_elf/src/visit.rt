//! To whom a listing is shown.
ghost use Rattle.std.specs.Prelude.{◌≡◌, ◌≤◌, ◌++◌, ◌∷◌, [], List, Option, Bool, false, map, IfSome, OnOk, OnErr, ◌⊎◌, length};
ghost use Rattle.blz_relocations.specs.Flows.{is_break};
ghost use Rattle.blz_elf.specs.Infos.{Info, info_view};
ghost use Rattle.blz_elf.specs.OwnedInfos.{owned_view};
ghost use Rattle.blz_elf.specs.Visits.{ShowsOne, is_last, told_unless, with_info, without_info};

use crate::sym_info::{SymInfo, SymInfoBuf};
use blz_relocations::Flow;
use std::alloc::{AllocError, Global};
use std::marker::Model;

/// Is shown the symbols of a listing, one after the other, until it answers Break.
pub trait Visit {
    // the infos shown, where they are told
    ghost shown: { Self → Option (List Info) };

    // it has answered Break
    ghost stopped: { Self → Bool };

    /// Shows one symbol. Not to be called after a Break.
    fn visit(&mut self, info: &SymInfo<'_>) -> Flow
        requires { stopped self.old ≡ false }
        ensures shown { ShowsOne (shown self.old) (shown self.new) (info_view info.now) }
        ensures stopped { stopped self.new ≡ is_break result };
}

/// Keeps the infos that it is shown, and breaks at the one with a given number.
#[derive(Drop)]
pub struct Collect {
    alloc: Global,
    infos: Vec<SymInfoBuf>,
    stop_after: Option<usize>,
    full: bool,
    stopped: bool,
}

impl Model for Collect {
    ghost use Rattle.std.specs.Prelude.{map};
    ghost use Rattle.blz_elf.specs.OwnedInfos.{owned_view};
    ghost use Rattle.blz_elf.specs.Visits.{Collected};

    ghost Value = { Collected };

    ghost view = { λ c. record { infos = map owned_view c.infos.items; stop_after = c.stop_after; full = c.full; stopped = c.stopped } };
}

impl Collect {
    /// Nothing yet; breaks at the info with that number, counted from 1, where there is one.
    pub fn new(alloc: Global, stop_after: Option<usize>) -> Collect
        requires { IfSome stop_after (λ number. 1 ≤ number) }
        ensures { result
            ≡ record { infos = []; stop_after = stop_after; full = false; stopped = false } }
    {
        Collect {
            alloc,
            infos: Vec::new(alloc),
            stop_after,
            full: false,
            stopped: false,
        }
    }

    /// The infos that were kept.
    pub fn infos(&self) -> &[SymInfoBuf]
        ensures { map owned_view result.now ≡ self.now.infos }
    {
        &self.infos
    }

    /// Whether an info was not kept, for want of memory.
    pub fn full(&self) -> bool
        ensures { result ≡ self.now.full }
    {
        self.full
    }

    /// Whether it has answered Break.
    pub fn stopped(&self) -> bool
        ensures { result ≡ self.now.stopped }
    {
        self.stopped
    }

    fn keep(&mut self, info: &SymInfo<'_>) -> Result<(), AllocError>
        ensures ok { OnOk result
            (self.new ≡ record self.old { infos = self.old.infos ++ info_view info.now ∷ [] }) }
        ensures err { OnErr result (self.new ≡ self.old) }
    {
        let owned = info.to_owned(self.alloc)?;
        self.infos.push(owned)?;
        Ok(())
    }

    fn is_complete(&self) -> bool
        ensures { result ≡ is_last self.now.stop_after (length self.now.infos) }
    {
        self.stop_after.is_some_and(|last| self.infos.len() == last)
    }
}

impl Visit for Collect {
    ghost shown = { λ c. told_unless c.full c.infos };

    ghost stopped = { λ c. c.stopped };

    fn visit(&mut self, info: &SymInfo<'_>) -> Flow
        requires { self.old.stopped ≡ false }
        ensures shown { ShowsOne (told_unless self.old.full self.old.infos)
            (told_unless self.new.full self.new.infos) (info_view info.now) }
        ensures stopped { self.new.stopped ≡ is_break result }
        ensures kept { (self.new ≡ with_info self.old (info_view info.now))
            ⊎ (self.new ≡ without_info self.old) }
    {
        match self.keep(info) {
            Ok(()) => self.stopped = self.is_complete(),
            Err(_) => {
                self.full = true;
                self.stopped = true;
            }
        }
        if self.stopped {
            Flow::Break
        } else {
            Flow::Continue
        }
    }
}
