//! The checksum of a debug file (GNU debug links).
ghost use Rattle.std.specs.Prelude.{◌≡◌};
ghost use Rattle.blz_links.specs.Checksums.{checksum_of};

use crate::checksum_tables::ChecksumTables;

/// The CRC-32 of some bytes, as a `.gnu_debuglink` section has it of a whole file: reflected polynomial 0xedb88320, all
/// bits set before the first byte and turned over after the last. Takes no memory, and eight bytes at a step.
pub fn debug_link_crc32(bytes: &[u8]) -> u32
    ensures { result ≡ checksum_of bytes.now }
{
    let tables = ChecksumTables::new();
    let (register, at) = tables.after_words(u32::MAX, bytes);
    tables.after_bytes(register, &bytes[at..]) ^ u32::MAX
}
