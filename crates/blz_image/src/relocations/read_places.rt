//! The places of an image whose entries of relocations were read for a section.
ghost use Rattle.std.specs.Prelude.{◌≡◌, ◌+◌, ◌*◌, ◌<◌, ◌≤◌, ℕ, Bool, true, List, OnOk};
ghost use Rattle.blz_image.specs.ReadPlaces.{AllRead, AreRead};
ghost use Rattle.blz_image.specs.declared.format.Format.{Format};
ghost use Rattle.blz_relocations.specs.Relocations.{OffsetMap};

use crate::span::{Rows, place_of};
use std::alloc::{AllocError, Global};
use std::collections::BTreeMap;

/// Runs of entries of each kind: by the place of the last one, how many lie before it.
#[derive(Drop)]
pub struct ReadPlaces {
    pub rela: BTreeMap<usize, usize>,
    pub rel: BTreeMap<usize, usize>,
}

impl ReadPlaces {
    /// No entry was read.
    pub fn none(alloc: Global) -> ReadPlaces
        ensures { (f : Format) (bytes : List ℕ) (m : OffsetMap) → AreRead f bytes m result }
    {
        ReadPlaces {
            rela: BTreeMap::new(alloc),
            rel: BTreeMap::new(alloc),
        }
    }
}

/// Notes that entries of `size` bytes were read. The runs that they end are made to begin where they do, so that what was
/// read is passed over in few steps.
pub fn note_read(
    read: &mut BTreeMap<usize, usize>,
    rows: Rows,
    size: usize,
    len: usize,
) -> Result<(), AllocError>
    requires { rows.at + size * rows.count ≤ len }
    ensures { OnOk result ((is_read : ℕ → Bool) → AllRead size is_read read.old
        → ((k : ℕ) → k < rows.count → is_read (rows.at + size * k) ≡ true)
        → AllRead size is_read read.new) }
{
    let mut end = rows.count;
    while end > 0 {
        let last = end - 1;
        let at = place_of(rows.at, size, rows.count, last, len);
        let before = read.get(&at).copied().unwrap_or(0);
        if before <= last {
            read.insert(at, last)?;
        }
        end = last.saturating_sub(before);
    }
    Ok(())
}
