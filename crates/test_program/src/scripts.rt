//! The program over readers and writers that fail, its reasons where these do, lines that are read in parts, and a plant in
//! service whose answers are flushed, as tests alone. What the program prints of an input, and the
//! reason of each mistake that a person can make, is reported by the cases of `tests/`, which are
//! walked on the built program.

mod flushing;
mod lines;
mod reading;
mod reasons;
mod streams;
mod wanted;
mod with_reasons;
mod writing;
