//! What is found in files by their paths.

mod kept;
mod listed;
mod printed;
mod refused;
mod shown;
mod sources;
