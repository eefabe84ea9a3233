//! What standard error says of a line `N` that is refused.

use crate::refusal_reasons::rest_text;
use frame_numbers::RenumberFault;
use plant::Plant;
use state_service::NewFrameFault;
use std::alloc::{AllocError, Global};

/// Returns how far apart the numbers are, less 1, under which a frame has the same Alloc Start Time. They are 2^(32 - k) apart if
/// 2^k is the greatest power of two that divides the minislots of a frame.
fn distance_mask(plant: &Plant) -> u32 {
    let minislots = plant.consts().get_fields().channel.frame_minislots;
    u32::MAX.wrapping_shr(minislots.trailing_zeros())
}

/// Returns why a frame cannot be called `to`, and what to do.
fn number_text(
    alloc: Global,
    plant: &Plant,
    from: u32,
    to: u32,
    why: RenumberFault,
) -> Result<String, AllocError> {
    let mask = distance_mask(plant);
    let step = u64::from(mask) + 1;
    match why {
        RenumberFault::TimeSteps if mask == u32::MAX => String::from_str(
            alloc,
            "the Alloc Start Time would step, as with any other number, since frame_minislots is odd",
        ),
        RenumberFault::TimeSteps => {
            let least = from & mask;
            format!(in alloc;
                "the Alloc Start Time would step; take {least}, or a number that is greater by a multiple of {step}"
            )
        }
        RenumberFault::TooLow => format!(in alloc;
            "a flow would count from a frame before frame 0; take a number that is greater by a multiple of {step}"
        ),
        RenumberFault::TooHigh => String::from_str(
            alloc,
            "a slice change would wait for a frame after 4294967295; repeat the line after its frame, or take a smaller number",
        ),
        RenumberFault::NoMemory => String::from_str(alloc, "memory ran out; repeat the line"),
    }
}

/// Returns why the next frame does not get the number of a line `N`, and what to do. It is part of a sentence.
fn fault_text(alloc: Global, plant: &Plant, why: &NewFrameFault) -> Result<String, AllocError> {
    match why {
        NewFrameFault::NoNumber => String::from_str(
            alloc,
            "write N, a space and a frame number, 0 to 4294967295, without leading zeros",
        ),
        NewFrameFault::Unfinished { why } => rest_text(alloc, *why),
        NewFrameFault::NotRenumbered { from, to, why } => {
            number_text(alloc, plant, *from, *to, *why)
        }
        NewFrameFault::BeforeFirstFrame => {
            let first = plant.consts().get_fields().channel.first_frame;
            format!(in alloc;
                "first_frame of the plant file is {first}; take a number that is not less"
            )
        }
        NewFrameFault::NotRestored { why: _ } => String::from_str(
            alloc,
            "the operators do not go on before that frame; take another number",
        ),
        NewFrameFault::NoMemory => String::from_str(alloc, "memory ran out; repeat the line"),
    }
}

/// Returns why the next frame of a plant does not get the number of the line `N` of this line number.
pub(crate) fn number_reason(
    alloc: Global,
    number: u64,
    plant: &Plant,
    why: &NewFrameFault,
) -> Result<String, AllocError> {
    let text = fault_text(alloc, plant, why)?;
    format!(in alloc; "line {number}: the next frame keeps its number: {text}\n")
}
