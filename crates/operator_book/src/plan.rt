//! The plan of an action: its outputs, and its effect on the state.

ghost use Rattle.std.specs.Prelude.{◌≡◌, ◌∷◌, [], IfOk};

use crate::boxed_verdict::BoxedVerdict;
use dsx_messages::{Kind, Modem};
use operator_model::{Arrival, Output, SliceRow};
use slice_scheduler::Grants;
use std::alloc::{AllocError, Global};
use tlv24::Bytes;
use transactions::GivenUps;

/// Memory for the outputs of an action: a list that has none yet. With one that was used before, the
/// outputs take no memory as long as they fit.
#[derive(Drop)]
pub struct SpareOutputs {
    outputs: Vec<Output>,
    ghost empty: { outputs.items ≡ [] },
}

/// What an action will do: its outputs, and its effect on the state. All memory for the outputs is
/// taken. The state changes when the plan is committed.
#[derive(Drop)]
pub struct Plan {
    pub(crate) outputs: Vec<Output>,
    pub(crate) effect: Effect,
}

/// The effect of an action on the state.
#[derive(Drop)]
pub(crate) enum Effect {
    /// Nothing changes.
    Nothing,
    /// What was received is put at the end of the inbox.
    Received(Arrival),
    /// What was received first is taken out of the inbox, and has this effect.
    Handled(HandledEffect),
    /// The timers count one tick, what is abandoned is undone, these grants are taken off the
    /// backlogs, and the next frame follows.
    Ticked { granted: Grants, given_up: GivenUps },
    /// This slice and budget wait for this frame.
    Resliced { from: u32, row: SliceRow },
}

/// The effect of what is handled.
#[derive(Drop)]
pub(crate) enum HandledEffect {
    /// Nothing changes.
    Nothing,
    /// The verdict's change is made to the flows, and these bytes of its reply are cached.
    Response {
        modem: Modem,
        tid: u16,
        kind: Kind,
        reply: Bytes,
        verdict: BoxedVerdict,
    },
    /// The response at this place, which waits for this acknowledgement, is held, and what waits of
    /// its flow is committed or undone.
    Acknowledged {
        place: usize,
        modem: Modem,
        tid: u16,
        kind: Kind,
        code: u8,
    },
    /// The backlog of this flow is replaced.
    Requested {
        sfid: u32,
        minislots: u16,
    },
}

impl SpareOutputs {
    /// Creates an empty list that has no memory yet.
    #[inline(always)]
    pub fn new(alloc: Global) -> SpareOutputs {
        SpareOutputs {
            outputs: Vec::new(alloc),
        }
    }

    /// Returns the memory of a list, whose outputs are dropped.
    #[inline(always)]
    pub fn of_list(outputs: Vec<Output>) -> SpareOutputs {
        let mut outputs = outputs;
        if !outputs.is_empty() {
            outputs.clear();
        }
        SpareOutputs { outputs }
    }

    /// Returns the list, which has no outputs.
    #[inline(always)]
    pub(crate) fn into_list(self) -> Vec<Output>
        ensures { result.items ≡ [] }
    {
        self.outputs
    }
}

impl Plan {
    /// Returns the outputs of the action, in order.
    pub fn outputs(&self) -> &[Output]
        ensures { result.now ≡ self.now.outputs.items }
    {
        self.outputs.as_slice()
    }
}

/// Returns a list of one output.
#[inline(always)]
pub(crate) fn single(spare: SpareOutputs, output: Output) -> Result<Vec<Output>, AllocError>
    ensures { IfOk result (λ outputs. outputs.items ≡ output ∷ []) }
{
    let mut outputs = spare.into_list();
    outputs.push(output)?;
    Ok(outputs)
}

/// Returns a copy of outputs, for a caller that keeps them.
pub fn output_copies(alloc: Global, outputs: &[Output]) -> Result<Vec<Output>, AllocError>
    ensures { IfOk result (λ copies. copies.items ≡ outputs.now) }
{
    let mut copies = Vec::with_capacity(alloc, outputs.len())?;
    for output in outputs {
        copies.push(output.copy(alloc)?)?;
    }
    Ok(copies)
}
