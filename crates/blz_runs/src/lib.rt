//! What tests of whole files and of programs share: an image without companions, why something was refused, and how a run
//! ended. No crate of the product stands on it.
#![tactic(auto)]

mod ended;
mod shown;

pub use ended::{Ended, Ran, roomy, run_with};
pub use shown::{lone, refusal};
