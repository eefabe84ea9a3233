//! The cache of responses and its timers: what the CMTS keeps of each transaction with a modem (CM-SP-MULPIv3.1, 11.2).
#![tactic(auto)]

mod entry;
mod kept;
mod life;
mod tick;
mod timers;

pub use entry::{KeptEntry, ResponseState};
pub use kept::{Kept, KeptFault};
pub use life::timers_keep_time;
pub use tick::{GivenUp, GivenUps, Resend, Resends, Ticked};
pub use timers::Timers;
