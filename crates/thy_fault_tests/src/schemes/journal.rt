//! Tests of the journal alone: those with rows of its own, and those of which each makes hundreds of runs.
mod cuts;
mod ends;
mod faults;
mod images;
