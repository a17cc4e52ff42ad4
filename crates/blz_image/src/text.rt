//! Texts that end in a zero byte.
ghost use Rattle.std.specs.Prelude.{◌≡◌, ◌≤◌, ◌-◌, [], IfOk, IfSome};
ghost use Rattle.std.specs.Bool.{OnTrue};
ghost use Rattle.std.specs.Str.{IsCharBoundary};
ghost use Rattle.blz_model.specs.Part.{Exactly, Good};
ghost use Rattle.blz_model.specs.Texts.{name_at, text_at};
ghost use Rattle.blz_image.specs.Names.{text_of, is_text, value_or};
ghost use Rattle.std.specs.Option.{option_map};

use blz_error::{Error, ErrorKind, Result, Str};
use memchr::memchr;

/// The bytes from a place up to the next zero.
pub fn bytes_at(table: &[u8], at: u32) -> Option<&[u8]>
    ensures { option_map (λ t. t.now) result ≡ text_at table.now at }
{
    let at = at as usize;
    if at > table.len() {
        return None;
    }
    let rest = &table[at..];
    let len = memchr(0, rest)?;
    Some(&rest[..len])
}

/// Whether the text at a place is a name. It reads no more of a long text than the name has.
pub fn is_text_at(table: &[u8], at: u32, name: &[u8]) -> bool
    ensures { result ≡ is_text (text_at table.now at) name.now }
{
    let at = at as usize;
    if at > table.len() {
        return false;
    }
    let rest = &table[at..];
    for i in 0..name.len() {
        if i >= rest.len() || rest[i] == 0 || rest[i] != name[i] {
            return false;
        }
    }
    name.len() < rest.len() && rest[name.len()] == 0
}

/// The name at a place of a table.
#[tactic(auto, unfolding(blz_model::specs::Texts::name_at, crate::specs::Names::text_of))]
pub fn name(table: &[u8], at: u32) -> Result<&str>
    ensures { Exactly (λ t. t.now) result (name_at table.now at) }
{
    let Some(bytes) = bytes_at(table, at) else {
        return Err(Error::new(ErrorKind::InvalidInput, Str::fixed("invalid string table")));
    };
    text_of(bytes)
}

/// The text of a name.
#[tactic(auto, unfolding(crate::specs::Names::text_of))]
pub fn text_of(name: &[u8]) -> Result<&str>
    ensures { Exactly (λ t. t.now) result (text_of name.now) }
{
    match str::from_utf8(name) {
        Ok(text) => Ok(text),
        Err(_) => Err(Error::new(ErrorKind::InvalidData, Str::fixed("invalid name"))),
    }
}

/// A name that was read, and where it stands.
#[derive(Clone, Copy)]
pub struct ReadName<'b> {
    /// The place of its first byte.
    pub at: u32,
    /// The name.
    pub text: &'b str,
}

/// Whether a place stands in a name, where one of its characters begins or it ends.
fn has_tail(read: &ReadName<'_>, at: u32) -> bool
    ensures { OnTrue result
        ((read.now.at ≤ at) × IsCharBoundary read.now.text.now (at - read.now.at)) }
{
    at >= read.at && read.text.is_char_boundary((at - read.at) as usize)
}

/// The name at a place, or the one that was read last, where the name is a tail of it: so that many names in one long text
/// are not read each.
pub fn next_name<'b>(table: &'b [u8], last: Option<ReadName<'b>>, at: u32) -> Result<ReadName<'b>>
    requires { IfSome last (λ r. name_at table.now r.at ≡ Good r.text.now) }
    ensures value { Exactly (λ _. value_or [] (name_at table.now at)) result
        (name_at table.now at) }
    ensures read { IfOk result (λ r. name_at table.now r.at ≡ Good r.text.now) }
    ensures tail { IfOk result (λ r. (r.at ≤ at) × IsCharBoundary r.text.now (at - r.at)) }
{
    match last {
        Some(read) if has_tail(&read, at) => Ok(read),
        _ => {
            let text = name(table, at)?;
            Ok(ReadName { at, text })
        },
    }
}
