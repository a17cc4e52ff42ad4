//! The link of a `.debug_sup` section (DWARF 5 section 7.3.6).
ghost use Rattle.std.specs.Prelude.{◌≡◌, IfErr};
ghost use Rattle.std.specs.Option.{option_map};
ghost use Rattle.blz_error.specs.declared.kind.ErrorKind.TheVariants.{InvalidData};
ghost use Rattle.blz_model.specs.Part.{Exactly};
ghost use Rattle.blz_links.specs.LinkChecks.{debug_sup_checks, debug_sup_of, flag_of, seen_by, sup_checksum, sup_path, sup_rest};
ghost use Rattle.blz_links.specs.LinkViews.{sup_view};

use crate::recorded::refusal::{invalid, target_at};
use blz_bytes::{ByteOrder, piece_at, u8_at, u16_at, uleb_at};
use blz_error::Result;

/// A file's part of the tie between it and its supplementary file.
#[derive(Clone, Copy)]
pub struct DebugSupInfo<'b> {
    /// The version of the section.
    pub version: u16,
    /// Whether this file is the supplementary one.
    pub is_supplementary: bool,
    /// The path of the supplementary file, which a supplementary file has not.
    pub path: Option<&'b str>,
    /// The checksum that both files have.
    pub checksum: &'b [u8],
}

// whether a file is the supplementary one
fn flag_of(flag: u8) -> Result<bool>
    ensures value { result ≡ flag_of flag }
    ensures kind { IfErr result (λ e. e.kind ≡ InvalidData) }
{
    match flag {
        0 => Ok(false),
        1 => Ok(true),
        _ => Err(invalid("invalid is_supplementary field value")),
    }
}

// the path by the flag
fn path_by(is_supplementary: bool, path: &str) -> Result<Option<&str>>
    ensures value { seen_by (option_map (λ p. p.now)) result ≡ sup_path is_supplementary path.now }
    ensures kind { IfErr result (λ e. e.kind ≡ InvalidData) }
{
    match (is_supplementary, path.is_empty()) {
        (false, false) => Ok(Some(path)),
        (false, true) => Err(invalid("debug sup target is empty")),
        (true, false) => Err(invalid("debug sup target is not empty in a supplementary file")),
        (true, true) => Ok(None),
    }
}

// the checksum behind the path
#[tactic(auto, unfolding(crate::specs::LinkChecks::sup_checksum))]
fn checksum_at<'b>(bytes: &'b [u8], at: usize) -> Result<&'b [u8]>
    ensures value { seen_by (λ c. c.now) result ≡ sup_checksum bytes.entry.now at }
    ensures kind { IfErr result (λ e. e.kind ≡ InvalidData) }
{
    let Some((size, at)) = uleb_at(bytes, at) else {
        return Err(invalid("failed to read .debug_sup sup_checksum_len"));
    };
    let Some((checksum, _)) = piece_at(bytes, at, size as usize) else {
        return Err(invalid("failed to read .debug_sup checksum"));
    };
    Ok(checksum)
}

// the path and the checksum behind the flag
#[tactic(auto, unfolding(crate::specs::LinkChecks::sup_rest))]
fn checked_rest<'b>(
    bytes: &'b [u8],
    at: usize,
    version: u16,
    is_supplementary: bool,
) -> Result<DebugSupInfo<'b>>
    ensures text { seen_by sup_view result ≡ sup_rest bytes.entry.now at version is_supplementary }
    ensures kind { IfErr result (λ e. e.kind ≡ InvalidData) }
{
    let (text, at) = target_at(bytes, at, "failed to read .debug_sup file field")?;
    let path = path_by(is_supplementary, text)?;
    let checksum = checksum_at(bytes, at)?;
    Ok(DebugSupInfo {
        version,
        is_supplementary,
        path,
        checksum,
    })
}

// the checks from left to right
#[tactic(auto, unfolding(crate::specs::LinkChecks::debug_sup_checks))]
fn checked_sup<'b>(bytes: &'b [u8], order: ByteOrder) -> Result<DebugSupInfo<'b>>
    ensures text { seen_by sup_view result ≡ debug_sup_checks order bytes.entry.now }
    ensures kind { IfErr result (λ e. e.kind ≡ InvalidData) }
{
    let Some((version, at)) = u16_at(bytes, 0, order) else {
        return Err(invalid("failed to read .debug_sup version"));
    };
    let Some((flag, at)) = u8_at(bytes, at) else {
        return Err(invalid("failed to read .debug_sup is_supplementary"));
    };
    let is_supplementary = flag_of(flag)?;
    checked_rest(bytes, at, version, is_supplementary)
}

/// What the bytes of a `.debug_sup` section spell: a version, whether the file is the supplementary one, a path and a
/// zero byte, the size of a checksum and the checksum. InvalidData exactly where one of them is not there, the flag is
/// neither 0 nor 1, or the path is not UTF-8, empty where the flag is 0 or not empty where it is 1.
#[tactic(auto, using(crate::proofs::LinkLemmas::exactly_seen))]
pub fn parse_debug_sup<'b>(bytes: &'b [u8], order: ByteOrder) -> Result<DebugSupInfo<'b>>
    ensures value { Exactly sup_view result (debug_sup_of order bytes.entry.now) }
    ensures text { seen_by sup_view result ≡ debug_sup_checks order bytes.entry.now }
{
    checked_sup(bytes, order)
}
