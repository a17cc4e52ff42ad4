//! Numbers and paths as they are printed.
ghost use Rattle.std.specs.Prelude.{◌≡◌, ◌++◌, OnOk, OnErr, decimal, length, take};
ghost use Rattle.blz_bytes.specs.Joined.{joined, separator_of};
ghost use Rattle.blz_program.specs.PrintedText.{hex_digits};

use blz_bytes::DirPath;
use itoa::Buffer;
use std::alloc::AllocError;

const DIGITS: [u8; 16] = *b"0123456789abcdef";

/// Appends a number as sixteen lower-case hexadecimal digits.
pub fn push_hex(out: &mut Vec<u8>, number: u64) -> Result<(), AllocError>
    ensures ok { OnOk result (out.new.items ≡ out.old.items ++ hex_digits number) }
    ensures err { OnErr result (out.new.items ≡ out.old.items) }
{
    out.extend_from_slice(&digits_of(number))
}

fn digits_of(number: u64) -> [u8; 16]
    ensures { result ≡ hex_digits number }
{
    let mut digits = [b'0'; 16];
    for i in 0..16 {
        digits[i] = DIGITS[((number >> (60 - 4 * i)) % 16) as usize];
    }
    digits
}

/// Appends a number in decimal.
pub fn push_decimal(out: &mut Vec<u8>, number: u64) -> Result<(), AllocError>
    ensures ok { OnOk result (out.new.items ≡ out.old.items ++ decimal number) }
    ensures err { OnErr result (out.new.items ≡ out.old.items) }
{
    let mut buffer = Buffer::new();
    out.extend_from_slice(buffer.format(number).as_bytes())
}

/// Appends the path of a file in a directory: the file alone where it begins with `/`, else the directory, a `/` where it
/// needs one, and the file.
pub fn push_path(out: &mut Vec<u8>, dir: &DirPath<'_>, file: &[u8]) -> Result<(), AllocError>
    ensures ok { OnOk result (out.new.items ≡ out.old.items ++ joined dir.now file.now) }
    ensures err { OnErr result (out.new.items ≡ out.old.items) }
{
    let len = out.len();
    match push_joined(out, dir, file) {
        Ok(()) => Ok(()),
        Err(error) => {
            out.truncate(len);
            Err(error)
        }
    }
}

// The same, but for what stands behind the old bytes after an error.
fn push_joined(out: &mut Vec<u8>, dir: &DirPath<'_>, file: &[u8]) -> Result<(), AllocError>
    ensures ok { OnOk result (out.new.items ≡ out.old.items ++ joined dir.now file.now) }
    ensures err { OnErr result (take (length out.old.items) out.new.items ≡ out.old.items) }
{
    match file.first() {
        Some(b'/') => {}
        _ => push_dir(out, dir)?,
    }
    out.extend_from_slice(file)
}

// A directory, and the `/` that it needs before a file.
fn push_dir(out: &mut Vec<u8>, dir: &DirPath<'_>) -> Result<(), AllocError>
    ensures ok { OnOk result (out.new.items ≡ out.old.items ++ dir.now ++ separator_of dir.now) }
    ensures err { OnErr result (take (length out.old.items) out.new.items ≡ out.old.items) }
{
    dir.write_to(out)?;
    let len = dir.len();
    if len > 0 && dir.byte_at(len - 1) != Some(b'/') {
        out.push(b'/')?;
    }
    Ok(())
}
