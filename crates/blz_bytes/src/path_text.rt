//! Paths as texts.
ghost use Rattle.blz_model.specs.Part.{Exactly};
ghost use Rattle.blz_bytes.specs.PathTexts.{path_text};

use blz_error::{Error, ErrorKind, Result, Str};

/// The bytes as a path; InvalidData exactly where they are not UTF-8.
#[tactic(auto, unfolding(crate::specs::PathTexts::path_text))]
pub fn bytes_to_path(bytes: &[u8]) -> Result<&str>
    ensures { Exactly (λ path. path.now) result (path_text bytes.now) }
{
    match str::from_utf8(bytes) {
        Ok(path) => Ok(path),
        Err(_) => Err(Error::new(ErrorKind::InvalidData, Str::fixed("path is not UTF-8"))),
    }
}
