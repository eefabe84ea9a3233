//! Tests of the program over readers and writers that fail, and of its reasons then. A plant in service flushes its answers.
//! Objects of JSON for the lines of a trace, and options of a command line.
#![tactic(auto)]

#[cfg(test)]
mod objects;
#[cfg(test)]
mod options;
#[cfg(test)]
mod scripts;
