//! What the link sections of an image say, and where their files are looked for.

mod build_ids;
mod candidates;
mod checksums;
mod debug_altlinks;
mod debug_links;
mod debug_sups;
mod paths;
mod readers;

use blz_error::Error;
use std::alloc::{AllocError, Global};

// the kind of an error and its text
fn message(alloc: Global, error: &Error) -> Result<String, AllocError> {
    let mut text = String::new(alloc);
    text.push_str(error.kind().as_text())?;
    text.push_str(": ")?;
    error.plain_text(&mut text)?;
    Ok(text)
}
