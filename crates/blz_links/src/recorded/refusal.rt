//! How the bytes of a link are refused.
ghost use Rattle.std.specs.Prelude.{◌≡◌, ◌≤◌, length, IfErr, IfOk};
ghost use Rattle.blz_error.specs.Reports.{fault_of};
ghost use Rattle.blz_error.specs.declared.kind.ErrorKind.TheVariants.{InvalidData};
ghost use Rattle.blz_links.specs.LinkChecks.{seen_by, target};

use blz_bytes::zero_ended_at;
use blz_error::{Error, ErrorKind, Result, Str};

/// An error of kind InvalidData.
pub fn invalid(text: &'static str) -> Error
    ensures { result ≡ fault_of InvalidData text.entry.now }
{
    Error::new(ErrorKind::InvalidData, Str::fixed(text))
}

/// The name or path of another file, which ends at a zero byte, and the place behind that byte. `unended` is said where
/// no zero byte follows.
#[tactic(auto, unfolding(crate::specs::LinkChecks::target))]
pub fn target_at<'b>(bytes: &'b [u8], at: usize, unended: &'static str) -> Result<(&'b str, usize)>
    ensures value { seen_by (λ r. (r.0.now, r.1)) result
        ≡ target bytes.entry.now at unended.entry.now }
    ensures kind { IfErr result (λ e. e.kind ≡ InvalidData) }
    ensures within { IfOk result (λ r. r.1 ≤ length bytes.entry.now) }
{
    let Some((text, next)) = zero_ended_at(bytes, at) else {
        return Err(invalid(unended));
    };
    match str::from_utf8(text) {
        Ok(text) => Ok((text, next)),
        Err(_) => Err(invalid("link target is not text")),
    }
}
