//! The length that a unit or a table begins with.
ghost use Rattle.std.specs.Prelude.{◌≡◌, ◌≤◌, ◌<◌, length, IfSome};
ghost use Rattle.blz_info.specs.Contents.{section_view};
ghost use Rattle.blz_info.specs.Headers.{initial_length, extent_at};

use crate::section::Section;
use blz_bytes::{u32_at, u64_at};

/// What the length of a unit or a table tells.
#[derive(Clone, Copy)]
pub struct Extent {
    /// Offsets have eight bytes, and else four.
    pub wide: bool,
    /// Where the unit or the table ends.
    pub end: usize,
}

#[tactic(auto, unfolding(crate::specs::Headers::initial_length))]
fn initial_length(section: &Section<'_, '_>, at: usize) -> Option<((bool, u64), usize)>
    ensures value { result ≡ initial_length (section_view section.now) at }
    ensures within { IfSome result (λ r. (at < r.1) × (r.1 ≤ length section.now.bytes.now)) }
{
    let (short, next) = u32_at(section.bytes, at, section.order)?;
    if short < 0xffff_fff0 {
        return Some(((false, u64::from(short)), next));
    }
    if short != 0xffff_ffff {
        return None;
    }
    let (long, next) = u64_at(section.bytes, next, section.order)?;
    Some(((true, long), next))
}

/// Where a unit or a table ends that begins at a place, and the place behind its length (DWARF 5 sections 7.2.2 and
/// 7.4); None exactly where the length is not whole, is reserved, or passes the section.
#[tactic(auto, unfolding(crate::specs::Headers::extent_at))]
pub fn extent_at(section: &Section<'_, '_>, at: usize) -> Option<(Extent, usize)>
    ensures value { result ≡ extent_at (section_view section.now) at }
    ensures within { IfSome result
        (λ r. (at < r.1) × (r.1 ≤ r.0.end) × (r.0.end ≤ length section.now.bytes.now)) }
{
    let ((wide, length), next) = initial_length(section, at)?;
    if ((section.bytes.len() - next) as u64) < length {
        return None;
    }
    let extent = Extent {
        wide,
        end: next + length as usize,
    };
    Some((extent, next))
}
