//! A plant in service: reads a line of a script, performs its steps, and writes the answer before it reads the next line. An
//! invalid line is reported and ends nothing. No history is kept.
#![tactic(auto)]

mod answering;
mod bytes;
mod front;
mod laws;
mod line_break;
mod line_buffer;
mod line_outcome;
mod opening;
mod reading;
mod script;
mod serving;
mod step_notes;
mod steps_end;

pub use answering::{answer_line, outcome_of, run_steps, run_steps_by, steps_said, write_end};
pub use bytes::next_byte;
pub use front::{read_plant_text, read_to_bar};
pub use laws::service_is_shown;
pub use line_break::LineBreak;
pub use line_buffer::LineBuffer;
pub use line_outcome::LineOutcome;
pub use opening::open_core;
pub use reading::read_line;
pub use script::{
    FieldError, FieldFault, LineFault, LineStep, NumberName, Sender, before_bar, cause_name,
    message_in, messages_of, parts_of, place_of, plant_text, put_line, put_parts, script_text,
    steps_of, write_actions, write_map, write_name, write_output, write_outs,
};
pub use serving::{answer_held, next_number, serve};
pub use step_notes::{NoNotes, StepNotes};
pub use steps_end::{StepsEnd, end_of};
