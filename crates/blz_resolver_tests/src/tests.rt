//! Bundles that are refused or answered, each asked by a small function that gives plain values.

mod built;
mod calls;
mod frame;
mod fronts;
mod functions;
mod inspector;
mod linkee;
mod listings;
mod opening;
mod orders;
mod outside;
mod package;
mod prepared;
mod program;
mod range_lists;
mod references;
mod refusals;
mod resolvers;
mod rows;
mod shared_ranges;
mod shown;
mod supplementary;
mod units;
