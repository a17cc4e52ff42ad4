//! What a path opens to, with its debug file, its package and the file that the debug file shares with others.

mod alternative;
mod failing;
mod linkee;
mod package;
mod refused;
mod supplementary;
mod vanishing;

use blz_bundle::{Bundle, Companion, OwnedBundle};
use blz_error::{Error, ErrorKind, Result};
use blz_images::{ByteOrder, debug_altlink, debug_link, debug_sup, with_build_id, with_section};
use blz_links::MemoryFiles;
use std::alloc::{AllocError, Global};

/// The checksum of `123456789` (CRC-32).
const DIGITS_CHECKSUM: u32 = 0xcbf43926;

// an image whose link names a file and its checksum
fn linked(alloc: Global, file: &str, checksum: u32) -> std::result::Result<Vec<u8>, AllocError> {
    let link = debug_link(alloc, ByteOrder::Little, file, checksum)?;
    with_section(alloc, ".gnu_debuglink", &link)
}

// an image whose section leads to a supplementary file, or says that it is one
fn sup(alloc: Global, path: &str, checksum: &[u8]) -> std::result::Result<Vec<u8>, AllocError> {
    let section = debug_sup(alloc, ByteOrder::Little, path, checksum)?;
    with_section(alloc, ".debug_sup", &section)
}

// an image with a link to a file of a build id
fn sharing(alloc: Global, path: &str) -> std::result::Result<Vec<u8>, AllocError> {
    let link = debug_altlink(alloc, path, b"12345678")?;
    with_section(alloc, ".gnu_debugaltlink", &link)
}

fn bytes_of(alloc: Global, text: &[u8]) -> std::result::Result<Vec<u8>, AllocError> {
    Vec::from_slice(alloc, text)
}

// the path and the bytes of a companion
fn is_at(companion: Option<Companion<'_>>, path: &str, image: &[u8]) -> bool {
    match companion {
        Some(companion) => companion.module == Some(path) && companion.image == image,
        None => false,
    }
}

// whether opening finds the shared file of the build id at a path
fn opens_with_common(alloc: Global, files: &mut MemoryFiles, path: &str) -> Result<bool> {
    let opened = open(alloc, files)?;
    let common = with_build_id(alloc, b"12345678")?;
    Ok(is_at(opened.bundle().supplementary, path, &common))
}

fn stands_alone(bundle: &Bundle<'_>) -> bool {
    bundle.linkee.is_none() && bundle.supplementary.is_none() && bundle.package.is_none()
}

// the kind of a refusal
fn refusal(opened: Result<OwnedBundle>) -> Option<ErrorKind> {
    match opened {
        Ok(_) => None,
        Err(error) => Some(error.kind()),
    }
}

// a refusal as invalid data, with what was found and what was recorded
fn differs(opened: Result<OwnedBundle>, actual: &[u8], recorded: &[u8]) -> bool {
    match opened {
        Ok(_) => false,
        Err(error) => error.kind() == ErrorKind::InvalidData
            && has_values(&error, actual, recorded),
    }
}

fn has_values(error: &Error, actual: &[u8], recorded: &[u8]) -> bool {
    match error.mismatch() {
        Some(mismatch) => mismatch.actual() == actual && mismatch.expected() == recorded,
        None => false,
    }
}

// a refusal as invalid data without a check
fn is_invalid(opened: Result<OwnedBundle>) -> bool {
    match opened {
        Ok(_) => false,
        Err(error) => error.kind() == ErrorKind::InvalidData && error.mismatch().is_none(),
    }
}

// files with an image at `/x/a`
fn holding(alloc: Global, image: Vec<u8>) -> std::result::Result<MemoryFiles, AllocError> {
    let mut files = MemoryFiles::new(alloc);
    files.put("/x/a", image)?;
    Ok(files)
}

// files with an image at `/x/a` whose link has the checksum of `123456789`, and these digits at a path
fn with_digits(alloc: Global, path: &str) -> std::result::Result<MemoryFiles, AllocError> {
    let mut files = holding(alloc, linked(alloc, "a.debug", DIGITS_CHECKSUM)?)?;
    files.put(path, bytes_of(alloc, b"123456789")?)?;
    Ok(files)
}

// puts a file of a build id on a path
fn put_with_id(
    alloc: Global,
    files: &mut MemoryFiles,
    path: &str,
    build_id: &[u8],
) -> std::result::Result<(), AllocError> {
    files.put(path, with_build_id(alloc, build_id)?)
}

// files with an image at `/x/a` that shares a file of a build id, which is at a path
fn with_common(
    alloc: Global,
    name: &str,
    path: &str,
) -> std::result::Result<MemoryFiles, AllocError> {
    let mut files = holding(alloc, sharing(alloc, name)?)?;
    put_with_id(alloc, &mut files, path, b"12345678")?;
    Ok(files)
}

// opens `/x/a`, where an image lies, with nothing beside it
fn open_lone(alloc: Global, image: Vec<u8>) -> Result<OwnedBundle> {
    open(alloc, &mut holding(alloc, image)?)
}

// opens `/x/a`, where an image lies, with one more file
fn open_with(alloc: Global, image: Vec<u8>, path: &str, file: &[u8]) -> Result<OwnedBundle> {
    let mut files = holding(alloc, image)?;
    files.put(path, bytes_of(alloc, file)?)?;
    open(alloc, &mut files)
}

// opens `/x/a`
fn open(alloc: Global, files: &mut MemoryFiles) -> Result<OwnedBundle> {
    OwnedBundle::open(alloc, files, "/x/a")
}
