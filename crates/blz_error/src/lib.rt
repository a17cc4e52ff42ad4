//! Errors: a kind, a chain of texts with the outermost first, and an optional mismatch.
#![tactic(auto)]

mod cause;
mod context;
mod error;
mod into_error;
mod kind;
mod mismatch;
mod report;
mod text;

pub use cause::Cause;
pub use context::ErrorExt;
pub use error::Error;
pub use into_error::IntoError;
pub use kind::ErrorKind;
pub use mismatch::Mismatch;
pub use text::{IntoCowStr, Str};

/// What a call of this crate answers.
pub type Result<T> = std::result::Result<T, Error>;
