//! Worked calls of what threads share, as tests alone, with values that others worked out: runs on threads that are held or refused, an
//! operator's cell by one caller and by two threads, the texts of faults, and calls of a cell of which one request for memory is refused.

mod cells;
mod faults;
mod gates;
mod opening;
mod playing;
mod refusals;
mod runs;
mod sharing;
mod waiting;
mod want_of_memory;
