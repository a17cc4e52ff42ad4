//! An ELF image and its companions, and how they are opened from a path.
#![tactic(auto)]

mod agreement;
mod alternative;
mod bundle;
mod following;
mod lead;
mod link_reading;
mod linked;
mod open_file;
mod opening;
mod owned_bundle;
mod package;
mod supplementary;

pub use bundle::{Bundle, Companion};
pub use owned_bundle::OwnedBundle;
