//! A record of either class.
ghost use Rattle.std.specs.Prelude.{◌≡◌, true, false};
ghost use Rattle.blz_records.specs.Classes.{by_class, Widens};

use crate::Pod;

// A field that both classes have; `widened` where it has 32 bits in the one and 64 in the other.
macro_rules! of_either {
    ($record:expr, $field:ident) => {
        match $record {
            ElfN::B32(r) => r.$field,
            ElfN::B64(r) => r.$field,
        }
    };
    ($record:expr, $field:ident, widened) => {
        match $record {
            ElfN::B32(r) => u64::from(r.$field),
            ElfN::B64(r) => r.$field,
        }
    };
}

pub(crate) use of_either;

/// A record of class 64 that has one of class 32.
pub trait Has32BitTy {
    /// The record of class 32.
    type Ty32Bit: Pod;
}

/// A record of either class.
#[derive(Drop)]
pub enum ElfN<T: Pod + Has32BitTy> {
    /// Of class 32.
    B32(T::Ty32Bit),
    /// Of class 64.
    B64(T),
}

impl<T: Pod + Has32BitTy> ElfN<T> {
    /// Whether the record is of class 32.
    pub fn is_32bit(&self) -> bool
        ensures { result ≡ by_class (λ _. true) (λ _. false) self.now }
    {
        match self {
            ElfN::B32(_) => true,
            ElfN::B64(_) => false,
        }
    }

    /// The record as one of class 64.
    pub fn to_64bit<'e>(&'e self) -> T
    where
        T: From<&'e T::Ty32Bit>,
        ensures { Widens T.from_gives self.now result }
    {
        match self {
            ElfN::B32(record) => T::from(record),
            ElfN::B64(record) => *record,
        }
    }
}
