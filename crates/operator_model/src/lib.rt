//! The definition of one operator's machine: its state, its actions, its outputs, and laws about them. The definitions are in
//! specs/, and `operator_book` implements them.
#![tactic(auto)]

mod action;
mod encodings;
mod frame_laws;
mod heard;
mod laws;
mod output;
mod share;
mod verdict;
mod worked;

pub use action::{Action, Entry, SliceRow, Unfit};
pub use encodings::{has_set_type, id_number, is_same, stand_together};
pub use frame_laws::{
    frame_is_a_part, frames_are_shares, frames_have_no_gap, given_up_have_no_grants,
    schedule_can_serve,
};
pub use heard::{Arrival, Heard};
pub use laws::{opened_is_sound, repeat_changes_nothing, replay_is_sound, step_keeps_sound};
pub use output::{Cause, Output, Outputs};
pub use share::{NextShare, Share};
pub use verdict::{Addition, AskedSets, Change, Transaction, Verdict};
pub use worked::{
    worked_additions_compute, worked_changes_compute, worked_classes_compute,
    worked_frames_compute, worked_shares_compute,
};
