//! Library calls where one request for memory is refused. `tools/compare/failed_library_allocations.sh` runs
//! each test again and again, and refuses another request in each run: the call that asked answers
//! its out of memory by its name and leaves its value as it was, and made once more it answers what
//! it answers otherwise. Out of memory elsewhere ends a test early, and it says so. Without a
//! refusal the tests show that the calls answer at all.

mod again;
mod captures;
mod copies;
mod maps;
mod messages;
mod tables;
