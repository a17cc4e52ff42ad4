//! Bundles and outcomes in the form in which tests ask and compare them.
use blz_error::{ErrorKind, Result};
use blz_resolver::Bundle;

/// An image without companions.
pub fn lone(image: &[u8]) -> Bundle<'_> {
    Bundle {
        image,
        module: None,
        linkee: None,
        supplementary: None,
        package: None,
    }
}

/// Why something was refused, where it was.
pub fn refusal<T: Drop>(outcome: Result<T>) -> Option<ErrorKind> {
    match outcome {
        Ok(_) => None,
        Err(error) => Some(error.kind()),
    }
}
