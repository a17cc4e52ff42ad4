//! The link of a `.gnu_debugaltlink` section (GNU debug links).
ghost use Rattle.std.specs.Prelude.{◌≡◌, IfErr};
ghost use Rattle.blz_error.specs.declared.kind.ErrorKind.TheVariants.{InvalidData};
ghost use Rattle.blz_model.specs.Part.{Exactly};
ghost use Rattle.blz_links.specs.LinkChecks.{debug_altlink_checks, debug_altlink_of, seen_by};
ghost use Rattle.blz_links.specs.LinkViews.{altlink_view};

use crate::recorded::refusal::{invalid, target_at};
use blz_error::Result;

/// The path of the file that has the shared debug information, and that file's build id.
#[derive(Clone, Copy)]
pub struct DebugAltlink<'b> {
    /// The path, absolute or from the linker's directory.
    pub path: &'b str,
    /// The bytes of the build id, at least one.
    pub build_id: &'b [u8],
}

// the checks from left to right
#[tactic(auto, unfolding(crate::specs::LinkChecks::debug_altlink_checks))]
fn checked_altlink<'b>(bytes: &'b [u8]) -> Result<DebugAltlink<'b>>
    ensures text { seen_by altlink_view result ≡ debug_altlink_checks bytes.entry.now }
    ensures kind { IfErr result (λ e. e.kind ≡ InvalidData) }
{
    let (path, next) = target_at(bytes, 0, "failed to read debug altlink path")?;
    if path.is_empty() {
        return Err(invalid("debug altlink target is empty"));
    }
    let build_id = &bytes[next..];
    if build_id.is_empty() {
        return Err(invalid("failed to read debug altlink build ID"));
    }
    Ok(DebugAltlink { path, build_id })
}

/// The link that the bytes of a `.gnu_debugaltlink` section spell: a path, a zero byte, and a build id up to the end.
/// InvalidData exactly where one of them is not there, the path is empty or it is not UTF-8.
#[tactic(auto, using(crate::proofs::LinkLemmas::exactly_seen))]
pub fn parse_debug_altlink<'b>(bytes: &'b [u8]) -> Result<DebugAltlink<'b>>
    ensures value { Exactly altlink_view result (debug_altlink_of bytes.entry.now) }
    ensures text { seen_by altlink_view result ≡ debug_altlink_checks bytes.entry.now }
{
    checked_altlink(bytes)
}
