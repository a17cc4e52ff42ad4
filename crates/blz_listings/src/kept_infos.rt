//! A listing of symbols and functions, as far as a room allows.
ghost use Rattle.std.specs.Prelude.{◌≡◌, ◌++◌, ◌∷◌, [], false, map, OnErr, OnOk};
ghost use Rattle.blz_elf.specs.Infos.{info_view};
ghost use Rattle.blz_elf.specs.OwnedInfos.{owned_view};
ghost use Rattle.blz_elf.specs.Visits.{ShowsOne, told_unless};
ghost use Rattle.blz_relocations.specs.Flows.{is_break};

use blz_bytes::Room;
use blz_elf::{Flow, SymInfo, SymInfoBuf, Visit};
use std::alloc::{AllocError, Global};
use std::marker::Model;

// The words of an info beside its name, in a vector that may have grown to twice its length.
const INFO_WORDS: u64 = 32;

/// Keeps the infos that it is shown; it breaks for want of memory alone.
#[derive(Drop)]
pub struct KeptInfos {
    alloc: Global,
    infos: Vec<SymInfoBuf>,
    // what further infos may take
    room: Room,
    // one was not kept
    is_full: bool,
}

impl Model for KeptInfos {
    ghost use Rattle.std.specs.Prelude.{map};
    ghost use Rattle.blz_elf.specs.OwnedInfos.{owned_view};
    ghost use Rattle.blz_listings.specs.KeptLists.{KeptList};

    ghost Value = { KeptList };

    ghost view = { λ k. record { infos = map owned_view k.infos.items; is_full = k.is_full } };
}

impl KeptInfos {
    /// No infos; takes no memory. Each info takes words of the room.
    pub fn new(alloc: Global, room: Room) -> KeptInfos
        ensures { result ≡ record { infos = []; is_full = false } }
    {
        KeptInfos {
            alloc,
            infos: Vec::new(alloc),
            room,
            is_full: false,
        }
    }

    /// The infos that were kept.
    pub fn infos(&self) -> &[SymInfoBuf]
        ensures { map owned_view result.now ≡ self.now.infos }
    {
        &self.infos
    }

    /// Whether an info was not kept, for want of memory.
    pub fn is_full(&self) -> bool
        ensures { result ≡ self.now.is_full }
    {
        self.is_full
    }

    fn keep(&mut self, info: &SymInfo<'_>) -> Result<(), AllocError>
        ensures ok { OnOk result
            (self.new ≡ record self.old { infos = self.old.infos ++ info_view info.now ∷ [] }) }
        ensures err { OnErr result (self.new ≡ self.old) }
    {
        self.room.take(info.name.len() as u64 / 8 + INFO_WORDS)?;
        let owned = info.to_owned(self.alloc)?;
        self.infos.push(owned)?;
        Ok(())
    }
}

impl Visit for KeptInfos {
    ghost shown = { λ k. told_unless k.is_full k.infos };

    ghost stopped = { λ k. k.is_full };

    fn visit(&mut self, info: &SymInfo<'_>) -> Flow
        requires { self.old.is_full ≡ false }
        ensures shown { ShowsOne (told_unless self.old.is_full self.old.infos)
            (told_unless self.new.is_full self.new.infos) (info_view info.now) }
        ensures stopped { self.new.is_full ≡ is_break result }
    {
        match self.keep(info) {
            Ok(()) => Flow::Continue,
            Err(_) => {
                self.is_full = true;
                Flow::Break
            }
        }
    }
}
