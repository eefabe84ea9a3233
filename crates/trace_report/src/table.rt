//! The table of checks as a list, with laws: the first check that holds gives the verdict, and each pending flow is awaited.

mod check;
mod laws;
mod message_laws;
mod pending_flows;
mod worked;

pub use check::{Check, MessageCheck};
pub use laws::{decided_once, verdict_is_decided};
pub use message_laws::{handled_once, message_is_decided};
pub use pending_flows::{opened_is_awaited, replay_is_awaited, step_keeps_awaited};
pub use worked::{worked_encodings, worked_flows, worked_messages, worked_room, worked_sets};
