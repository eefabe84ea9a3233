//! TLVs and upstream service flow encodings (CM-SP-MULPIv3.1, Annex C, type 24), read and written exactly.
#![tactic(auto)]

mod bytes;
mod class_name;
mod fault;
mod fields;
mod flow;
mod laws;
mod read;
mod set_type;
pub mod subtype;
mod tlv;
mod write;

pub use bytes::{Bytes, ShortBytes};
pub use class_name::ClassName;
pub use fault::FlowFault;
pub use fields::{ErrorEncodings, FlowFields};
pub use flow::FlowTlv;
pub use laws::{flow_is_read, one_meaning, read_back};
pub use read::read_flow;
pub use set_type::SetType;
pub use tlv::{FirstTlv, Tlv, TlvFault, Tlvs, first_tlv};
pub use write::write_flow;
