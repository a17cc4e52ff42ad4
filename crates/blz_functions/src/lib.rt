//! What one unit tells, given where its references lead: its functions, and the inlined calls of each.
#![tactic(auto)]

mod call_lists;
mod description;
mod function_lists;
mod functions;
mod inlined_functions;
pub mod laws;
mod levels;
mod links;
mod open_unit;
mod referred;
mod walking;

pub use call_lists::CallLists;
pub use function_lists::FunctionLists;
pub use functions::{Function, Functions};
pub use inlined_functions::{InlinedFunction, InlinedFunctions};
pub use links::Links;
pub use open_unit::OpenUnit;
pub use referred::{Visited, visit};
