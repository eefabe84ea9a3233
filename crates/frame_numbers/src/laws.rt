//! Laws of another numbering of frames.

ghost use Rattle.frame_numbers.specs.Renumbered.{RenumberingIsNotNoticed, RefusalsAreTheSame};
ghost use Rattle.frame_numbers.specs.Time.{TimeGoesOn};

/// States that an operator whose frames are numbered otherwise does the same: whatever is done, it gives the same replies, the
/// same causes where there is no reply, and the same elements in the same order, under other frame numbers.
pub fn renumbering_is_not_noticed()
    // This is as long as there are numbers for its frames. The state at the end is renumbered too.
    ensures { RenumberingIsNotNoticed }
{}

/// States that it refuses the same actions, for the same causes.
pub fn refusals_are_the_same()
    // The exception is a tick after the last frame number.
    ensures { RefusalsAreTheSame }
{}

/// States that where a frame has the same Alloc Start Time under another number, each later frame has, and its MAP is the same.
pub fn time_goes_on()
    ensures { TimeGoesOn }
{}
