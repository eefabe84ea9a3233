//! Tests of inputs, queues and answers of several operators: what no clause says of threads, and what writers of answers hold.
#![tactic(auto)]

#[cfg(test)]
mod answers;
#[cfg(test)]
mod ends;
#[cfg(test)]
mod floods;
#[cfg(test)]
mod inputs;
#[cfg(test)]
mod lines;
#[cfg(test)]
mod queues;
#[cfg(test)]
mod tally;
