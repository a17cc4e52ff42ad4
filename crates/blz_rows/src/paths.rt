//! Paths of source files, and the names that mean them.
ghost use Rattle.std.specs.Prelude.{◌≡◌, ◌++◌, reverse, slice_get};
ghost use Rattle.blz_bytes.specs.Joined.{joined, separator_of};
ghost use Rattle.blz_rows.specs.Matching.{matches};

use blz_bytes::DirPath;

/// Whether a file in a directory is meant by a name: its path is the name, or ends in `/` and the name.
pub fn path_matches(dir: &DirPath<'_>, file: &[u8], name: &[u8]) -> bool
    ensures { result ≡ matches (joined dir.now file.now) name.now }
{
    for index in 0..name.len() {
        if byte_before_end(dir, file, index) != Some(name[name.len() - 1 - index]) {
            return false;
        }
    }
    match byte_before_end(dir, file, name.len()) {
        Some(byte) => byte == b'/',
        None => true,
    }
}

// The byte of the path of a file in a directory that has so many bytes behind it.
fn byte_before_end(dir: &DirPath<'_>, file: &[u8], behind: usize) -> Option<u8>
    ensures { result ≡ slice_get (reverse (joined dir.now file.now)) behind }
{
    if behind < file.len() {
        return Some(file[file.len() - 1 - behind]);
    }
    match file.first() {
        Some(b'/') => None,
        _ => byte_before_end_of_directory(dir, behind - file.len()),
    }
}

// The same of a directory with the `/` that it needs before a file.
fn byte_before_end_of_directory(dir: &DirPath<'_>, behind: usize) -> Option<u8>
    ensures { result ≡ slice_get (reverse (dir.now ++ separator_of dir.now)) behind }
{
    let len = dir.len();
    if len == 0 || dir.byte_at(len - 1) == Some(b'/') {
        return byte_before(dir, behind);
    }
    if behind == 0 {
        Some(b'/')
    } else {
        byte_before(dir, behind - 1)
    }
}

// The same of a directory alone.
fn byte_before(dir: &DirPath<'_>, behind: usize) -> Option<u8>
    ensures { result ≡ slice_get (reverse dir.now) behind }
{
    if behind < dir.len() {
        dir.byte_at(dir.len() - 1 - behind)
    } else {
        None
    }
}
