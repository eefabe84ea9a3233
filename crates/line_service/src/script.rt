//! The text of a script and of outputs, line by line: the steps that a line says, and the lines of a run.

mod causes;
mod digits;
mod fields;
mod hexadecimal;
mod input;
mod lines;
mod script;
mod unhex;
mod writing;

pub use causes::cause_name;
pub use fields::{FieldError, FieldFault, NumberName};
pub use input::{before_bar, plant_text, script_text};
pub use lines::{LineFault, message_in, messages_of, parts_of, put_parts};
pub use script::{LineStep, Sender, place_of, put_line, steps_of};
pub use writing::{write_actions, write_map, write_name, write_output, write_outs};
