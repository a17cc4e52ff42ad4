//! The rows of the ids of an index, for many searches.
ghost use Rattle.std.specs.Prelude.{◌≡◌, ◌<◌, ◌+◌, ℕ, suc, length, IfOk};
ghost use Rattle.std.specs.BTreeMap.{get, IsEmpty};
ghost use Rattle.std.specs.Ordering.{nat_cmp};
ghost use Rattle.blz_split.specs.IndexRows.{HasRows};
ghost use Rattle.blz_split.specs.TablesFit.{TablesFit};

use crate::tables::Tables;
use blz_model::ByteOrder;
use std::alloc::{AllocError, Global};
use std::collections::BTreeMap;

/// Of each id of an index the row of the first slot that has it together with a row number that is not 0.
#[derive(Drop)]
pub struct IdRows {
    pub rows: BTreeMap<u64, u32>,
}

impl IdRows {
    /// None; takes no memory.
    pub fn new(alloc: Global) -> IdRows
        ensures { IsEmpty result.rows }
    {
        IdRows {
            rows: BTreeMap::new(alloc),
        }
    }

    /// Notes the row of a slot, before the rows of the slots behind it.
    fn note(
        &mut self,
        order: ByteOrder,
        index: &[u8],
        tables: &Tables,
        slot: usize,
    ) -> Result<(), AllocError>
        requires fit { TablesFit (length index.now) tables.now }
        requires there { slot < tables.now.slots }
        ensures { IfOk result
            (λ _. (n : ℕ) → HasRows order index.now tables.now n (slot + 1) self.old.rows
            → HasRows order index.now tables.now (suc n) slot self.new.rows) }
    {
        let row = tables.row(order, index, slot);
        if row > 0 {
            self.rows.insert(tables.id(order, index, slot), row)?;
        }
        Ok(())
    }

    /// The rows of the ids of an index: the last slot is noted first.
    pub fn read(
        alloc: Global,
        order: ByteOrder,
        index: &[u8],
        tables: &Tables,
    ) -> Result<IdRows, AllocError>
        requires { TablesFit (length index.now) tables.now }
        ensures { IfOk result (λ r. HasRows order index.now tables.now tables.now.slots 0 r.rows) }
    {
        let mut rows = IdRows::new(alloc);
        for noted in 0..tables.slots {
            rows.note(order, index, tables, tables.slots - 1 - noted)?;
        }
        Ok(rows)
    }

    /// The row of an id.
    pub fn get(&self, id: u64) -> Option<u32>
        ensures { result ≡ get nat_cmp self.now.rows id }
    {
        self.rows.get(&id).copied()
    }
}
