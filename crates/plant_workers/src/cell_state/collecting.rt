//! The frame that waits longest.

ghost use Rattle.std.specs.Prelude.{◌≡◌, ◌≤◌, length, All, slice_get, IsSome, IfOk, OnErr};
ghost use Rattle.run_model.specs.IsStateAfter.{frames_of};
ghost use Rattle.plant_core.specs.Waiting.{waiting_in, IsOneFrame};
ghost use Rattle.plant_workers.specs.cell_state.Oldest.{IsOldest};

use operator_model::{Entry, Output};
use slice_scheduler::Elements;
use std::alloc::{AllocError, Global};

/// The frame that waits longest, and after which place of the history the next one is looked for.
#[derive(Debug, Drop)]
pub(crate) struct Oldest {
    pub number: u32,
    pub elements: Elements,
    pub behind: usize,
}

/// Returns the first frame among outputs.
fn first_frame(alloc: Global, outputs: &[Output]) -> Result<Option<(u32, Elements)>, AllocError>
    ensures value { IfOk result (λ frame. frame ≡ slice_get (frames_of outputs.now) 0) }
    ensures some { OnErr result (IsSome (slice_get (frames_of outputs.now) 0)) }
{
    for output in outputs {
        if let Output::Frame { number, elements } = output {
            return Ok(Some((*number, elements.copy(alloc)?)));
        }
    }
    Ok(None)
}

/// Returns the first frame from a place of the history on.
pub(crate) fn oldest_from(
    alloc: Global,
    history: &[Entry],
    from: usize,
) -> Result<Option<Oldest>, AllocError>
    requires one { All IsOneFrame history.now }
    requires within { from ≤ length history.now }
    ensures value { IfOk result (IsOldest history.now from) }
    ensures some { OnErr result (IsSome (slice_get (waiting_in history.now from) 0)) }
{
    for place in from..history.len() {
        if let Some((number, elements)) = first_frame(alloc, history[place].outputs.as_slice())? {
            return Ok(Some(Oldest {
                number,
                elements,
                behind: place + 1,
            }));
        }
    }
    Ok(None)
}
