//! The unit index of a package (DWARF 5 section 7.3.5.3).
ghost use Rattle.std.specs.Prelude.{◌≡◌, ◌≤◌, ◌<◌, ◌+◌, ◌*◌, ◌^◌, Bool, true, length, IfSome, Option};
ghost use Rattle.blz_split.specs.Contributions.{tables_in, tables_of_5, index_tables, no_tables, first_in, found_row, id_of, is_slot_of, row_of, is_column_of, contribution, contribution_in, inside, cell};
ghost use Rattle.blz_split.specs.TablesFit.{TablesFit};

use crate::split_unit::Piece;
use blz_bytes::{u16_at, u32_at};
use blz_model::ByteOrder;
use blz_records::{u32_in, u64_in};

/// How many columns, rows and slots an index has, and where its tables begin.
#[derive(Clone, Copy)]
pub struct Tables {
    pub columns: usize,
    pub units: usize,
    pub slots: usize,
    /// the row numbers of the slots
    pub rows: usize,
    /// the kinds of the columns
    pub names: usize,
    /// the offsets of the rows
    pub offsets: usize,
    /// the sizes of the rows
    pub sizes: usize,
}

#[tactic(auto, unfolding(crate::specs::Contributions::tables_in))]
fn tables_in(len: usize, columns: u32, units: u32, slots: u32) -> Option<Tables>
    requires { len < 2 ^ 63 }
    ensures value { result ≡ tables_in len columns units slots }
    ensures fit { IfSome result (TablesFit len) }
{
    let cells = u128::from(columns) * u128::from(units);
    let head = 16 + 12 * u128::from(slots) + 4 * u128::from(columns);
    if head + 8 * cells > len as u128 {
        return None;
    }
    Some(Tables {
        columns: columns as usize,
        units: units as usize,
        slots: slots as usize,
        rows: 16 + 8 * slots as usize,
        names: 16 + 12 * slots as usize,
        offsets: head as usize,
        sizes: head as usize + 4 * cells as usize,
    })
}

#[tactic(auto, unfolding(crate::specs::Contributions::tables_of_5))]
fn tables_of_5(order: ByteOrder, index: &[u8]) -> Option<Tables>
    ensures value { result ≡ tables_of_5 order index.now }
    ensures fit { IfSome result (TablesFit (length index.now)) }
{
    let (columns, _) = u32_at(index, 4, order)?;
    let (units, _) = u32_at(index, 8, order)?;
    let (slots, _) = u32_at(index, 12, order)?;
    tables_in(index.len(), columns, units, slots)
}

fn no_tables() -> Tables
    ensures { result ≡ no_tables }
{
    Tables {
        columns: 0,
        units: 0,
        slots: 0,
        rows: 16,
        names: 16,
        offsets: 16,
        sizes: 16,
    }
}

/// The tables of an index; none of an empty one and of one of version 2. None exactly where its version is not known or
/// a table passes the end.
#[tactic(auto, unfolding(crate::specs::Contributions::index_tables))]
pub fn index_tables(order: ByteOrder, index: &[u8]) -> Option<Tables>
    ensures value { result ≡ index_tables order index.now }
    ensures fit { IfSome result (TablesFit (length index.now)) }
{
    if index.len() == 0 {
        return Some(no_tables());
    }
    if let Some((2, _)) = u32_at(index, 0, order) {
        return Some(no_tables());
    }
    let (version, _) = u16_at(index, 0, order)?;
    if version == 5 {
        tables_of_5(order, index)
    } else {
        None
    }
}

impl Tables {
    /// The id of a slot.
    pub fn id(&self, order: ByteOrder, index: &[u8], slot: usize) -> u64
        requires fit { TablesFit (length index.now) self.now }
        requires there { slot < self.now.slots }
        ensures { result ≡ id_of order index.now slot }
    {
        u64_in(index, 16 + 8 * slot, order)
    }

    /// The row number of a slot.
    pub fn row(&self, order: ByteOrder, index: &[u8], slot: usize) -> u32
        requires fit { TablesFit (length index.now) self.now }
        requires there { slot < self.now.slots }
        ensures { result ≡ row_of order index.now self.now slot }
    {
        u32_in(index, self.rows + 4 * slot, order)
    }

    fn is_slot_of(&self, order: ByteOrder, index: &[u8], id: u64, slot: usize) -> bool
        requires fit { TablesFit (length index.now) self.now }
        requires there { slot < self.now.slots }
        ensures { result ≡ is_slot_of order index.now self.now id slot }
    {
        self.id(order, index, slot) == id && self.row(order, index, slot) > 0
    }

    /// The row of the first slot that has the id together with a row number that is not 0.
    pub fn find_row(&self, order: ByteOrder, index: &[u8], id: u64) -> Option<u32>
        requires { TablesFit (length index.now) self.now }
        ensures value { result ≡ found_row order index.now self.now id }
        ensures some { IfSome result (λ row. 0 < row) }
    {
        let slot = self.find_slot(order, index, id)?;
        Some(self.row(order, index, slot))
    }

    #[tactic(auto, unfolding(crate::specs::Contributions::first_in))]
    fn find_slot(&self, order: ByteOrder, index: &[u8], id: u64) -> Option<usize>
        requires { TablesFit (length index.now) self.now }
        ensures value { result
            ≡ first_in (is_slot_of order index.now self.now id) self.now.slots 0 }
        ensures there { IfSome result (λ slot. slot < self.now.slots) }
        ensures passes { IfSome result
            (λ slot. is_slot_of order index.now self.now id slot ≡ true) }
    {
        for slot in 0..self.slots {
            if self.is_slot_of(order, index, id, slot) {
                return Some(slot);
            }
        }
        None
    }

    fn is_column_of(&self, order: ByteOrder, index: &[u8], kind: u32, column: usize) -> bool
        requires fit { TablesFit (length index.now) self.now }
        requires there { column < self.now.columns }
        ensures { result ≡ is_column_of order index.now self.now kind column }
    {
        u32_in(index, self.names + 4 * column, order) == kind
    }

    #[tactic(auto, unfolding(crate::specs::Contributions::first_in))]
    fn find_column(&self, order: ByteOrder, index: &[u8], kind: u32) -> Option<usize>
        requires { TablesFit (length index.now) self.now }
        ensures value { result
            ≡ first_in (is_column_of order index.now self.now kind) self.now.columns 0 }
        ensures there { IfSome result (λ column. column < self.now.columns) }
    {
        for column in 0..self.columns {
            if self.is_column_of(order, index, kind, column) {
                return Some(column);
            }
        }
        None
    }

    // where the cell of a row and a column stands in a table
    fn cell(&self, row: u32, column: usize) -> usize
        requires row { (0 < row) × (row ≤ self.now.units) }
        requires column { column < self.now.columns }
        requires small { self.now.columns * self.now.units < 2 ^ 60 }
        ensures value { result ≡ cell self.now row column }
        ensures within { result + 4 ≤ 4 * (self.now.columns * self.now.units) }
    {
        4 * ((row as usize - 1) * self.columns + column)
    }

    /// The contribution of a row to a kind of section, which has so many bytes. None exactly where it does not lie
    /// inside the section.
    #[tactic(auto, unfolding(crate::specs::Contributions::contribution))]
    pub fn contribution(
        &self,
        order: ByteOrder,
        index: &[u8],
        row: u32,
        kind: u32,
        len: usize,
    ) -> Option<Piece>
        requires fit { TablesFit (length index.now) self.now }
        requires row { (0 < row) × (row ≤ self.now.units) }
        ensures value { result ≡ contribution order index.now self.now row kind len }
        ensures inside { IfSome result (λ p. p.start + p.len ≤ len) }
    {
        match self.find_column(order, index, kind) {
            None => Some(Piece { start: 0, len: 0 }),
            Some(column) => {
                let cell = self.cell(row, column);
                let start = u32_in(index, self.offsets + cell, order);
                let size = u32_in(index, self.sizes + cell, order);
                inside(len, start, size)
            }
        }
    }
}

fn inside(len: usize, start: u32, size: u32) -> Option<Piece>
    ensures value { result ≡ inside len start size }
    ensures within { IfSome result (λ p. p.start + p.len ≤ len) }
{
    if start as usize + size as usize > len {
        return None;
    }
    Some(Piece {
        start: start as usize,
        len: size as usize,
    })
}
