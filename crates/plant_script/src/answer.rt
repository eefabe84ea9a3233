//! What the program answers.

ghost use Rattle.std.specs.Prelude.{◌≢◌};
ghost use Rattle.plant_script.specs.Statuses.{status_code};

use crate::status::Status;

/// What the program answers to what it has read: its status, and what it writes. Out of memory and an I/O error are not
/// answers: they say that there is none.
#[derive(Drop)]
pub struct Answer {
    pub status: Status,
    pub text: Vec<u8>,
    ghost no_want: { status_code status ≢ 5 },
    ghost no_failure: { status_code status ≢ 6 },
}
