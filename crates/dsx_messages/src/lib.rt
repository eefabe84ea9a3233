//! DSA, DSC and DSD messages (CM-SP-MULPIv3.1, 6.4.12 to 6.4.22): the reader of messages, and the writer and reader of replies.
#![tactic(auto)]

mod code;
mod fault;
mod kind;
mod laws;
mod message;
pub mod message_type;
mod modem;
mod reading;
mod reply;
mod reply_details;
mod reply_reading;
mod spell;
pub mod tlv_type;

pub use code::Code;
pub use fault::MessageFault;
pub use kind::Kind;
pub use laws::message_is_read;
pub use message::{FlowEncodings, Message, Request};
pub use modem::Modem;
pub use reading::read;
pub use reply::{Detail, FlowId, Reply, ReplyFields};
pub use reply_reading::{read_back, read_reply};
pub use spell::{reply_bytes, write_reply};
