//! The files of the system.
ghost use Rattle.std.specs.Prelude.{◌≡◌, ◌≤◌, ◌≢◌, Err, None, OnOk, vec_len};
ghost use Rattle.blz_links.specs.FilesAnswers.{HasFilesCause};

use blz_links::files::{Files, FilesFault, Stamp};
use std::alloc::{AllocError, Global};
use std::io::Read;
use std::time::UNIX_EPOCH;
use std::{fs, io, rt};

// A longer file is not read.
const MOST_BYTES: usize = 4_294_967_295;

// How much is read at once: so many pieces of zeros make room for it.
const CHUNK_PIECES: usize = 32;

const PIECE: [u8; 1024] = [0; 1024];

/// The files that a runtime has. It does not tell what they hold, and follows no links. A path that is too long for the
/// system, or has a name that is, names nothing, as no file can have it. Below a file and in a loop of links nothing stands
/// either; a read there is a failure. A file of more than 4,294,967,295 bytes is refused before it is read.
#[derive(Drop)]
pub struct RealFiles<'r, R> {
    rt: &'r R,
    faults: u64,
}

impl<'r, R: rt::Files> RealFiles<'r, R> {
    /// The files of this runtime.
    pub fn new(rt: &'r R) -> RealFiles<'r, R>
        ensures { result.faults ≡ 0 }
    {
        RealFiles { rt, faults: 0 }
    }

    // Counts a failure, and answers it.
    fn failure<T>(&mut self, kind: io::ErrorKind) -> Result<T, FilesFault>
        ensures cause { HasFilesCause self.old.faults self.new.faults result }
        ensures never { (result ≢ Err FilesFault.NotFound) × (result ≢ Err FilesFault.Memory) }
    {
        self.faults = self.faults.saturating_add(1);
        match kind {
            io::ErrorKind::PermissionDenied => Err(FilesFault::Denied),
            _ => Err(FilesFault::Failed),
        }
    }
}

// Room for one chunk more.
fn make_room(bytes: &mut Vec<u8>) -> std::result::Result<(), AllocError>
    ensures { OnOk result (vec_len bytes.old ≤ vec_len bytes.new) }
{
    for _ in 0..CHUNK_PIECES {
        bytes.extend_from_slice(&PIECE)?;
    }
    Ok(())
}

// Reads once behind what is there, and says how many bytes came; none where a signal came first.
fn read_more<R: Read>(file: &mut R, bytes: &mut Vec<u8>) -> io::Result<Option<usize>> {
    let filled = bytes.len();
    make_room(bytes)?;
    match file.read(&mut bytes[filled..]) {
        Ok(count) => {
            bytes.truncate(filled + count);
            Ok(Some(count))
        }
        Err(error) if error.kind() == io::ErrorKind::Interrupted => {
            bytes.truncate(filled);
            Ok(None)
        }
        Err(error) => Err(error),
    }
}

fn read_whole<R: rt::Files>(rt: &R, alloc: Global, path: &str) -> io::Result<Vec<u8>> {
    let mut file = fs::open(rt, path)?;
    let mut bytes = Vec::new(alloc);
    let told = fs::metadata(rt, path)?.len();
    if told > MOST_BYTES as u64 {
        return Err(io::Error::from(io::ErrorKind::FileTooLarge));
    }
    // room for the whole file at once, so that what is read does not move; a file that tells no size grows
    bytes.reserve_exact(told as usize + CHUNK_PIECES * PIECE.len())?;
    for _ in 0..u64::MAX {
        if read_more(&mut file, &mut bytes)? == Some(0) {
            return Ok(bytes);
        }
        if bytes.len() > MOST_BYTES {
            break;
        }
    }
    Err(io::Error::from(io::ErrorKind::FileTooLarge))
}

fn seconds_of(metadata: &fs::Metadata) -> u64 {
    match metadata.modified() {
        Ok(time) => match time.duration_since(UNIX_EPOCH) {
            Ok(since) => since.as_secs(),
            Err(_) => 0,
        },
        Err(_) => 0,
    }
}

impl<'r, R: rt::Files> Files for RealFiles<'r, R> {
    ghost contents = { λ _. None };

    ghost stamps = { λ _. None };

    ghost faults = { λ f. f.faults };

    ghost told_together = { λ _. tt };

    fn read(&mut self, alloc: Global, path: &str) -> Result<Vec<u8>, FilesFault> {
        match read_whole(self.rt, alloc, path) {
            Ok(bytes) => Ok(bytes),
            Err(error) => match error.kind() {
                // no file can have a name that is too long
                io::ErrorKind::NotFound | io::ErrorKind::InvalidFilename => Err(
                    FilesFault::NotFound,
                ),
                io::ErrorKind::OutOfMemory => Err(FilesFault::Memory),
                kind => self.failure(kind),
            },
        }
    }

    fn exists(&mut self, path: &str) -> Result<bool, FilesFault> {
        match fs::exists(self.rt, path) {
            Ok(found) => Ok(found),
            Err(error) => match error.kind() {
                // no file can have a name that is too long, and below a file or a loop of links nothing can stand
                io::ErrorKind::InvalidFilename
                | io::ErrorKind::NotADirectory
                | io::ErrorKind::FilesystemLoop => Ok(false),
                kind => self.failure(kind),
            },
        }
    }

    fn canonical(&mut self, alloc: Global, path: &str) -> Result<Option<String>, FilesFault> {
        if self.exists(path)? {
            Ok(Some(String::from_str(alloc, path)?))
        } else {
            Ok(None)
        }
    }

    fn stamp(&mut self, path: &str) -> Result<Stamp, FilesFault> {
        match fs::metadata(self.rt, path) {
            Ok(metadata) => Ok(Stamp {
                size: metadata.len(),
                changed: seconds_of(&metadata),
            }),
            Err(error) => match error.kind() {
                io::ErrorKind::NotFound | io::ErrorKind::InvalidFilename => Err(
                    FilesFault::NotFound,
                ),
                kind => self.failure(kind),
            },
        }
    }
}
