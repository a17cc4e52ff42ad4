//! Small sections, with the values that the standard gives by hand or that readelf prints.

mod compiled;
mod entries;
mod forms;
mod indexes;
mod ranges;
mod samples;
mod small;
mod wanted;
