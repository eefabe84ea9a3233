//! The assembly of a frame's MAP from the operators' parts, and the reader of MAPs (CM-SP-MULPIv3.1, 6.4.4; the layout is
//! implementation-specific).
#![tactic(auto)]

mod assembling;
mod checking;
mod element;
mod gather;
mod header;
mod map_bytes;
mod memory;
mod queue;
mod quota;
mod reading;
mod refused;
mod slicing;
mod view;
mod wire;
mod writing;

pub use checking::{are_slices_of, first_invalid_slice};
pub use gather::Gather;
pub use map_bytes::MapBytes;
pub use reading::read_map;
pub use refused::{GatherFault, Refused};
pub use view::{MapFault, MapHeader, MapSpan, MapSpans, MapView};
