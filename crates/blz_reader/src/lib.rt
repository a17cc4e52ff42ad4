//! What is read of units: their parts, where references lead, and how what is kept of them is filled and asked.
#![tactic(auto)]

mod ask;
mod call_sites;
mod calls;
mod filling;
mod lent;
mod list;
mod names;
pub mod reader;
mod references;
pub mod sites;
pub mod visit_function;
