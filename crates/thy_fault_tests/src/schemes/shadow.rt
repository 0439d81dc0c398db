//! Tests of shadow paging alone: those with rows of its own, and those of which each makes hundreds of runs.
mod cuts;
mod faults;
mod images;
