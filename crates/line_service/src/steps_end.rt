//! How steps end that are done one after the other.

ghost use Rattle.std.specs.Prelude.{◌≡◌};
ghost use Rattle.line_service.specs.Ends.{steps_end};

use plant_core::CoreFault;

/// How steps ended that are done one after the other.
#[derive(Clone, Copy, Debug, PartialEq, Eq)]
pub enum StepsEnd {
    /// All are done.
    Done,
    /// The next one is refused: that of the line of this number.
    Refused { number: u64 },
    /// The next one is not refused, and an allocation for it failed.
    NoMemory,
}

/// Returns how steps end of which the core does not do the next one: with the number of its line, or out of memory.
pub fn end_of(number: u64, fault: CoreFault) -> StepsEnd
    ensures { result ≡ steps_end number fault }
{
    match fault {
        CoreFault::NoMemory => StepsEnd::NoMemory,
        _ => StepsEnd::Refused { number },
    }
}
