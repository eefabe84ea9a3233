//! How the program ends.

ghost use Rattle.std.specs.Prelude.{◌≡◌};
ghost use Rattle.plant_script.specs.Statuses.{status_code};

/// How the program ends. Its exit status is a number.
#[derive(Clone, Copy, Debug, PartialEq, Eq)]
pub enum Status {
    /// All was done, or help was requested.
    Success,
    /// The arguments are wrong, or name an operator that the plant does not have.
    WrongArguments,
    /// The plant file is invalid.
    InvalidPlant,
    /// A line of the script is invalid, or its step is refused.
    InvalidLine,
    /// Memory ran out.
    OutOfMemory,
    /// A read or a write failed, or the input is too long or not UTF-8.
    IoError,
    /// The threads did not do what the script says.
    Strayed,
}

impl Status {
    /// Returns the number of the exit status, 0 or 2 to 7.
    pub fn code(self) -> u8
        ensures { result ≡ status_code self }
    {
        match self {
            Status::Success => 0,
            Status::WrongArguments => 2,
            Status::InvalidPlant => 3,
            Status::InvalidLine => 4,
            Status::OutOfMemory => 5,
            Status::IoError => 6,
            Status::Strayed => 7,
        }
    }
}
