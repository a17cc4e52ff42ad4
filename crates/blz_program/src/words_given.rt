//! The words that the system hands to a program.
ghost use Rattle.std.specs.Prelude.{◌≡◌, ◌⊎◌, IfErr};

use crate::outcome::Outcome;
use std::env::FillError;
use std::io;
use std::rt::Env;

// How many bytes a word is first given.
const FIRST_ROOM: usize = 256;

/// The words after the program's name, each in no more memory than it takes. Usage where they can't be had, as where one
/// is not text, and OutOfMemory for want of memory.
pub fn words_of<R: Env + AllocGlobal>(rt: &R) -> Result<Vec<String>, Outcome>
    ensures { IfErr result (λ o. (o ≡ Outcome.Usage) ⊎ (o ≡ Outcome.OutOfMemory)) }
{
    match kept_words(rt) {
        Ok(words) => Ok(words),
        Err(error) => match error.kind() {
            io::ErrorKind::OutOfMemory => Err(Outcome::OutOfMemory),
            _ => Err(Outcome::Usage),
        },
    }
}

fn kept_words<R: Env + AllocGlobal>(rt: &R) -> io::Result<Vec<String>> {
    let mut words = Vec::new(rt.alloc());
    let mut room = Vec::new(rt.alloc());
    room.resize(FIRST_ROOM, 0u8)?;
    for i in 0..usize::MAX {
        match word_at(rt, i, &mut room)? {
            // the first is the program's name
            Some(word) if i > 0 => words.push(word)?,
            Some(_) => {}
            None => break,
        }
    }
    Ok(words)
}

// The word of a number, read in some room that grows until it fits; None past the last.
fn word_at<R: Env + AllocGlobal>(
    rt: &R,
    i: usize,
    room: &mut Vec<u8>,
) -> io::Result<Option<String>> {
    for _ in 0..usize::BITS {
        match rt.arg(i, room.as_mut_slice()) {
            Ok(len) => return word_in(rt, &room[..len]),
            Err(FillError::NotPresent) => return Ok(None),
            Err(FillError::TooLong) => room.resize(room.len().saturating_mul(2), 0u8)?,
        }
    }
    Err(io::Error::from(io::ErrorKind::OutOfMemory))
}

// A copy of a word that is text.
fn word_in<R: AllocGlobal>(rt: &R, bytes: &[u8]) -> io::Result<Option<String>> {
    match str::from_utf8(bytes) {
        Ok(text) => Ok(Some(String::from_str(rt.alloc(), text)?)),
        Err(_) => Err(io::Error::from(io::ErrorKind::InvalidData)),
    }
}
