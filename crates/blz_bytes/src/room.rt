//! How much a file may make its reader keep and read again.
ghost use Rattle.std.specs.Prelude.{◌≡◌, ◌+◌, ◌<◌, IfErr, OnOk};
ghost use Rattle.blz_error.specs.declared.kind.ErrorKind.TheVariants.{OutOfMemory};
ghost use Rattle.blz_bytes.specs.Allowance.{words_of};

use blz_error::{Error, ErrorKind, Str};
use std::alloc::AllocError;
use std::marker::Model;

/// The words for each byte of a file.
pub const WORDS_A_BYTE: u64 = 8;

/// The words that a file has besides, however small it is.
pub const LEAST_WORDS: u64 = 262_144;

/// What a file may still make its reader keep and read again, in words of eight bytes. A limit on amplification: what
/// the parts of a file share is read again for each of them, so reading could grow with the square of the file.
#[derive(Drop)]
pub struct Room {
    left: u64,
    // whether more was asked for than was left
    refused: bool,
}

impl Model for Room {
    ghost use Rattle.std.specs.Prelude.{ℕ};

    ghost Value = { ℕ };

    ghost view = { λ r. r.left };
}

impl Room {
    /// The room of a file of a number of bytes.
    pub fn of(bytes: u64) -> Room
        ensures { result ≡ words_of bytes }
    {
        Room {
            left: bytes
                .saturating_mul(WORDS_A_BYTE)
                .saturating_add(LEAST_WORDS),
            refused: false,
        }
    }

    /// Room without an end, for a call that reads a part of a file once.
    pub fn endless() -> Room {
        Room {
            left: u64::MAX,
            refused: false,
        }
    }

    /// The words that are left.
    pub fn left(&self) -> u64
        ensures { result ≡ self.now }
    {
        self.left
    }

    /// The error for want of memory, which says so where it is the room that had no more.
    pub fn want(&self) -> Error
        ensures { result.kind ≡ OutOfMemory }
    {
        if self.refused {
            let text = Str::fixed("more to read than the file's size allows");
            return Error::new(ErrorKind::OutOfMemory, text);
        }
        Error::from(AllocError)
    }

    /// Takes words; an error exactly where fewer are left, and none is taken then.
    pub fn take(&mut self, words: u64) -> Result<(), AllocError>
        ensures taken { OnOk result (self.new + words ≡ self.old) }
        ensures refused { IfErr result (λ _. (self.old < words) × (self.new ≡ self.old)) }
    {
        if words > self.left {
            self.refused = true;
            return Err(AllocError);
        }
        self.left -= words;
        Ok(())
    }
}
