//! Tests of library calls that no run of the program shows: encodings, MAPs, a journal, frame numbers, and failed allocations in
//! lower layers.
#![tactic(auto)]

#[cfg(test)]
mod encodings;
#[cfg(test)]
mod gathering;
#[cfg(test)]
mod journal;
#[cfg(test)]
mod keeping;
#[cfg(test)]
mod maps;
#[cfg(test)]
mod messages;
#[cfg(test)]
mod numbering;
#[cfg(test)]
mod ranks;
#[cfg(test)]
mod schedules;
#[cfg(test)]
mod sets;
#[cfg(test)]
mod want_of_memory;
