//! A run of a plant as a pcap file of MAC management frames, which Wireshark opens as DOCSIS.
#![tactic(auto)]

mod capture;
mod checks;
mod clock;
mod framing;
mod laws;
mod managed;
mod packet;
mod recording;
mod run_laws;

pub use capture::Capture;
pub use clock::Clock;
pub use laws::{check_values, file_is_read, frame_is_read};
pub use packet::Packet;
pub use run_laws::{
    capture_holds_run, last_outputs_are_own, opened_is_of_run, run_has_one_capture,
    step_is_captured, times_are_counted,
};
