//! The records of a table, where they lie in the image.
ghost use Rattle.std.specs.Prelude.{◌≡◌, ◌≤◌, ◌==◌, ◌+◌, ◌-◌, ◌*◌, [], length, drop, take, slice_get, IfOk, IfSome, Some, option_copied};
ghost use Rattle.std.specs.Iterator.{UpTo, YieldsFirst, item_count};
ghost use Rattle.std.specs.Iterator.SizeHint.{IsWithinCount};
ghost use Rattle.blz_image.specs.Places.{RowsFit};
ghost use Rattle.blz_elf.specs.RecordLists.{of_class, record_at, records_in};

use blz_image::format::{Class, Format};
use blz_image::span::{Rows, place_of};
use blz_records::{
    ByteOrder, Elf64_Phdr, Elf64_Rel, Elf64_Rela, Elf64_Shdr, Elf64_Sym, ElfN, Has32BitTy, Pod,
};
use std::alloc::{AllocError, Global};
use std::marker::{Model, PhantomData};

/// Records of one class, one after another: a slice of the image.
#[derive(Drop)]
pub struct ElfNSlice<'b, T: Pod + Has32BitTy> {
    image: &'b [u8],
    rows: Rows,
    of: PhantomData<T>,
}

impl<'b, T: Pod + Has32BitTy> Model for ElfNSlice<'b, T> {
    ghost use Rattle.std.specs.Prelude.{List};
    ghost use Rattle.blz_records.specs.declared.class.ElfN.{ElfN};
    ghost use Rattle.blz_image.specs.Places.{RowsFit};
    ghost use Rattle.blz_elf.specs.RecordLists.{of_class, records_in};

    ghost Value = { List (ElfN T T.Ty32Bit) };

    ghost view = { λ s. records_in T.Ty32Bit.value T.Ty32Bit.SIZE T.value T.SIZE s.image.now s.rows };

    ghost invariant = { λ s. RowsFit (of_class T.Ty32Bit.SIZE T.SIZE) s.image.now s.rows };
}

/// Program headers.
pub type ElfN_Phdrs<'b> = ElfNSlice<'b, Elf64_Phdr>;

/// Section headers.
pub type ElfN_Shdrs<'b> = ElfNSlice<'b, Elf64_Shdr>;

/// Symbols.
pub type ElfN_Syms<'b> = ElfNSlice<'b, Elf64_Sym>;

/// Relocations with an addend.
pub type ElfN_Relas<'b> = ElfNSlice<'b, Elf64_Rela>;

/// Relocations without one.
pub type ElfN_Rels<'b> = ElfNSlice<'b, Elf64_Rel>;

// the bytes of a record
fn size_of<T: Pod + Has32BitTy>(class: Class) -> usize
    ensures { result ≡ of_class T.Ty32Bit.SIZE T.SIZE class }
{
    match class {
        Class::Elf32 => <T::Ty32Bit as Pod>::SIZE,
        Class::Elf64 => T::SIZE,
    }
}

// the value that the bytes from a place on spell
fn pod_at<R: Pod>(image: &[u8], at: usize, order: ByteOrder) -> R
    requires { at + R.SIZE ≤ length image.now }
    ensures { result ≡ R.value order (take R.SIZE (drop at image.now)) }
{
    R::read(&image[at..], order)
}

// the record at a place
fn record_at<T: Pod + Has32BitTy>(image: &[u8], at: usize, format: Format) -> ElfN<T>
    requires { at + of_class T.Ty32Bit.SIZE T.SIZE format.class ≤ length image.now }
    ensures { result
        ≡ record_at T.Ty32Bit.value T.Ty32Bit.SIZE T.value T.SIZE format image.now at }
{
    match format.class {
        Class::Elf32 => ElfN::B32(pod_at(image, at, format.order)),
        Class::Elf64 => ElfN::B64(pod_at(image, at, format.order)),
    }
}

// all rows but the first ones
fn rows_after(rows: Rows, size: usize, count: usize, len: usize) -> Rows
    requires inside { rows.at + size * rows.count ≤ len }
    requires some { count ≤ rows.count }
    ensures format { result.format ≡ rows.format }
    ensures at { result.at ≡ rows.at + size * count }
    ensures count { result.count ≡ rows.count - count }
    ensures fits { result.at + size * result.count ≤ len }
{
    let count_left = rows.count - count;
    Rows {
        format: rows.format,
        at: rows.at + size * count,
        count: count_left,
    }
}

impl<'b, T: Pod + Has32BitTy> ElfNSlice<'b, T> {
    /// No records, of class 32 or 64.
    pub fn empty(tybit32: bool) -> ElfNSlice<'b, T>
        ensures { result ≡ [] }
    {
        ElfNSlice {
            image: &[],
            rows: Rows {
                format: Format {
                    class: if tybit32 { Class::Elf32 } else { Class::Elf64 },
                    order: ByteOrder::Little,
                },
                at: 0,
                count: 0,
            },
            of: PhantomData,
        }
    }

    // the records at a place of an image
    pub(crate) fn open(image: &'b [u8], rows: Rows) -> ElfNSlice<'b, T>
        requires { RowsFit (of_class T.Ty32Bit.SIZE T.SIZE) image.now rows }
        ensures { result
            ≡ records_in T.Ty32Bit.value T.Ty32Bit.SIZE T.value T.SIZE image.now rows }
    {
        ElfNSlice {
            image,
            rows,
            of: PhantomData,
        }
    }

    /// Whether there are none.
    pub fn is_empty(&self) -> bool
        ensures { result ≡ (length self.now == 0) }
    {
        self.len() == 0
    }

    /// How many they are.
    pub fn len(&self) -> usize
        ensures { result ≡ length self.now }
    {
        self.rows.count
    }

    /// The record at an index, none from the length on.
    pub fn get(&self, idx: usize) -> Option<ElfN<T>>
        ensures { result ≡ slice_get self.now idx }
    {
        let rows = self.rows;
        if rows.count <= idx {
            return None;
        }
        let size = size_of::<T>(rows.format.class);
        let at = place_of(rows.at, size, rows.count, idx, self.image.len());
        Some(record_at(self.image, at, rows.format))
    }

    // all but the first ones
    fn after(&self, count: usize) -> ElfNSlice<'b, T>
        requires { count ≤ length self.now }
        ensures { result ≡ drop count self.now }
    {
        let size = size_of::<T>(self.rows.format.class);
        ElfNSlice {
            image: self.image,
            rows: rows_after(self.rows, size, count, self.image.len()),
            of: PhantomData,
        }
    }

    /// A copy that needs no image.
    pub fn to_owned(&self, alloc: Global) -> Result<ElfNVec<T>, AllocError>
        ensures { IfOk result (λ records. records ≡ self.now) }
    {
        let mut items = Vec::with_capacity(alloc, self.len())?;
        for record in self.iter(0) {
            items.push(record)?;
        }
        Ok(ElfNVec { items })
    }

    /// The records from an index on, one after the other.
    pub fn iter(&self, start_idx: usize) -> ElfNIter<'b, T>
        requires { start_idx ≤ length self.now }
        ensures { result ≡ drop start_idx self.now }
    {
        ElfNIter {
            rest: self.after(start_idx),
        }
    }
}

/// Goes over records.
#[derive(Drop)]
pub struct ElfNIter<'b, T: Pod + Has32BitTy> {
    rest: ElfNSlice<'b, T>,
}

impl<'b, T: Pod + Has32BitTy> Model for ElfNIter<'b, T> {
    ghost use Rattle.std.specs.Prelude.{List};
    ghost use Rattle.blz_records.specs.declared.class.ElfN.{ElfN};

    ghost Value = { List (ElfN T T.Ty32Bit) };

    ghost view = { λ i. i.rest };
}

impl<'b, T: Pod + Has32BitTy> Iterator for ElfNIter<'b, T> {
    type Item = ElfN<T>;

    ghost next_gives = { YieldsFirst (λ s. s) };

    ghost remaining = { item_count (λ s. s) };

    fn next(&mut self) -> Option<ElfN<T>> {
        let Some(first) = self.rest.get(0) else {
            return None;
        };
        self.rest = self.rest.after(1);
        Some(first)
    }

    fn size_hint(&self) -> (usize, Option<usize>)
        ensures lower { IsWithinCount result.0 (item_count (λ s. s) self.now) }
        ensures upper { IfSome result.1 (UpTo (item_count (λ s. s) self.now)) }
        ensures exact { result ≡ (length self.now, Some (length self.now)) }
    {
        let count = self.rest.len();
        (count, Some(count))
    }
}

impl<'b, T: Pod + Has32BitTy> ExactSizeIterator for ElfNIter<'b, T> {
    fn len(&self) -> usize {
        self.rest.len()
    }
}

/// Records of one class that stand for themselves.
#[derive(Drop)]
pub struct ElfNVec<T: Pod + Has32BitTy> {
    items: Vec<ElfN<T>>,
}

impl<T: Pod + Has32BitTy> Model for ElfNVec<T> {
    ghost use Rattle.std.specs.Prelude.{List};
    ghost use Rattle.blz_records.specs.declared.class.ElfN.{ElfN};

    ghost Value = { List (ElfN T T.Ty32Bit) };

    ghost view = { λ v. v.items.items };
}

impl<T: Pod + Has32BitTy> ElfNVec<T> {
    /// How many they are.
    pub fn len(&self) -> usize
        ensures { result ≡ length self.now }
    {
        self.items.len()
    }

    /// The record at an index, none from the length on.
    pub fn get(&self, idx: usize) -> Option<&ElfN<T>>
        ensures { option_copied result ≡ slice_get self.now idx }
    {
        self.items.get(idx)
    }

    /// The records as a slice.
    pub fn as_slice(&self) -> &[ElfN<T>]
        ensures { result.now ≡ self.now }
    {
        self.items.as_slice()
    }
}
