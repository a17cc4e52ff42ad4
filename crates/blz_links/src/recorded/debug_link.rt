//! The link of a `.gnu_debuglink` section (GNU debug links).
ghost use Rattle.std.specs.Prelude.{◌≡◌, IfErr};
ghost use Rattle.blz_error.specs.declared.kind.ErrorKind.TheVariants.{InvalidData};
ghost use Rattle.blz_model.specs.Part.{Exactly};
ghost use Rattle.blz_links.specs.LinkChecks.{debug_link_checks, debug_link_of, seen_by};
ghost use Rattle.blz_links.specs.LinkViews.{link_view};

use crate::recorded::refusal::{invalid, target_at};
use blz_bytes::{ByteOrder, u32_at};
use blz_error::Result;

/// The name of the file that has the debug information, and the checksum of that file's bytes.
#[derive(Clone, Copy)]
pub struct DebugLink<'b> {
    /// The name of the file; it may have directories.
    pub file: &'b str,
    /// The CRC-32 of the whole file.
    pub checksum: u32,
}

// the checks from left to right
#[tactic(auto, unfolding(crate::specs::LinkChecks::debug_link_checks))]
fn checked_link<'b>(bytes: &'b [u8], order: ByteOrder) -> Result<DebugLink<'b>>
    ensures text { seen_by link_view result ≡ debug_link_checks order bytes.entry.now }
    ensures kind { IfErr result (λ e. e.kind ≡ InvalidData) }
{
    let (file, next) = target_at(bytes, 0, "failed to read debug link file name")?;
    if file.is_empty() {
        return Err(invalid("debug link target is empty"));
    }
    let at = next.next_multiple_of(4);
    if at > bytes.len() {
        return Err(invalid("debug link section contains insufficient data: checksum not found"));
    }
    let Some((checksum, _)) = u32_at(bytes, at, order) else {
        return Err(invalid("failed to read debug link checksum"));
    };
    Ok(DebugLink { file, checksum })
}

/// The link that the bytes of a `.gnu_debuglink` section spell: a name, a zero byte, padding to a multiple of four, and
/// a checksum of four bytes. InvalidData exactly where one of them is not there, the name is empty or it is not UTF-8.
#[tactic(auto, using(crate::proofs::LinkLemmas::exactly_seen))]
pub fn parse_debug_link<'b>(bytes: &'b [u8], order: ByteOrder) -> Result<DebugLink<'b>>
    ensures value { Exactly link_view result (debug_link_of order bytes.entry.now) }
    ensures text { seen_by link_view result ≡ debug_link_checks order bytes.entry.now }
{
    checked_link(bytes, order)
}
