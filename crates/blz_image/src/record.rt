//! Tables of records, where they lie in an image.
ghost use Rattle.std.specs.Prelude.{◌≡◌, ◌+◌, ◌≤◌, ◌<◌, ℕ, List, length};
ghost use Rattle.std.specs.List.{HoldsAt};
ghost use Rattle.blz_image.specs.declared.format.Class.{Class};
ghost use Rattle.blz_image.specs.declared.format.Format.{Format};
ghost use Rattle.blz_image.specs.Places.{RowsFit, rows_in};

use crate::format::{Class, Format};
use crate::span::{Rows, place_of};
use std::marker::{Model, PhantomData};

/// What is read of a record.
pub trait Record {
    /// The bytes of a record.
    ghost SIZE: { Class → ℕ };

    /// The record at a place.
    ghost record_at: { Format → List ℕ → ℕ → Self };

    /// The bytes of a record.
    fn size(class: Class) -> usize
        ensures { result ≡ SIZE class };

    /// The record at a place.
    fn read(image: &[u8], at: usize, format: Format) -> Self
        requires { at + SIZE format.class ≤ length image.now }
        ensures { result ≡ record_at format image.now at };
}

/// A table of records.
#[derive(Drop)]
pub struct Records<'b, R: Record> {
    image: &'b [u8],
    rows: Rows,
    of: PhantomData<R>,
}

impl<'b, R: Record> Model for Records<'b, R> {
    ghost use Rattle.std.specs.Prelude.{List};
    ghost use Rattle.blz_image.specs.Places.{RowsFit, rows_in};

    ghost Value = { List R };

    ghost view = { λ t. rows_in R.record_at R.SIZE t.image.now t.rows };

    ghost invariant = { λ t. RowsFit R.SIZE t.image.now t.rows };
}

impl<'b, R: Record> Records<'b, R> {
    /// The records at a place.
    pub fn open(image: &'b [u8], rows: Rows) -> Records<'b, R>
        requires { RowsFit R.SIZE image.now rows }
        ensures { result ≡ rows_in R.record_at R.SIZE image.now rows }
    {
        Records {
            image,
            rows,
            of: PhantomData,
        }
    }

    /// How many they are.
    pub fn len(&self) -> usize
        ensures { result ≡ length self.now }
    {
        self.rows.count
    }

    /// The record at an index.
    pub fn at(&self, index: usize) -> R
        requires { index < length self.now }
        ensures { HoldsAt (λ r. r ≡ result) self.now index }
    {
        let rows = self.rows;
        let size = R::size(rows.format.class);
        let at = place_of(rows.at, size, rows.count, index, self.image.len());
        R::read(self.image, at, rows.format)
    }
}
