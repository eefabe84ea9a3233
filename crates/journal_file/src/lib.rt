//! The file of a journal on a real disk, locked for one process at a time.
//!
//! `JournalFile` is a `Device` over `std::fs`. Each method makes its calls of the system, and then notes them with their outcome in
//! a record that only clauses read. What a read returns, and what a crash may leave, are definitions over that record
//! (`specs/Disk.antt`). Assumed and not proved is this:
//!
//! - Each outcome in the record is what the system did: each method makes the calls that it notes, `Ok` means that the system did
//!   what was asked, and a read returns the bytes that are noted.
//! - A crash leaves one of the contents that the definitions allow, and the next opening reads that.
//! - No other program writes to the folder's files. The lock keeps out other processes that open the journal so.
#![tactic(auto)]

mod calls;
mod file;
mod folder;
mod mirror;
mod opening;

pub use calls::FileCall;
pub use file::JournalFile;
pub use opening::{JournalOpenFault, JournalPart};
