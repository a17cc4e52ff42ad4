//! Whole runs over files and sinks in memory.
mod demos;
mod failures;
mod images;
mod modes;
mod orders;
mod runs;
mod usages;
