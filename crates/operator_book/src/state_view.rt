//! The state of a machine as a value: a copy of a machine's state, or one that a machine is to go on from.

ghost use Rattle.std.specs.Prelude.{◌≡◌, IfOk};

use crate::machine::MachineState;
use flow_table::Flow;
use operator_model::{Arrival, NextShare, Share};
use std::alloc::{AllocError, Global};
use std::collections::VecDeque;
use std::marker::Model;
use transactions::KeptEntry;

/// The state of a machine as a value: a copy, or one that was saved. Contracts see it as the state.
#[derive(Debug, Drop)]
pub struct StateView {
    pub(crate) flows: Vec<(u32, Flow)>,
    pub(crate) kept: Vec<KeptEntry>,
    pub(crate) inbox: Vec<Arrival>,
    pub(crate) frame: u32,
    pub(crate) share: Share,
    pub(crate) next: Option<NextShare>,
}

impl Model for StateView {
    ghost use Rattle.operator_model.specs.State.{OperatorState};

    ghost Value = { OperatorState };

    ghost view = { λ s. record { flows = s.flows.items; kept = s.kept.items; inbox = s.inbox.items; frame = s.frame; share = s.share; next = s.next } };
}

/// Returns a copy of what is kept.
fn kept_copy(alloc: Global, kept: &[KeptEntry]) -> Result<Vec<KeptEntry>, AllocError>
    ensures { IfOk result (λ copies. copies.items ≡ kept.now) }
{
    let mut copies = Vec::with_capacity(alloc, kept.len())?;
    for entry in kept {
        copies.push(entry.copy(alloc)?)?;
    }
    Ok(copies)
}

/// Returns a copy of what was received.
fn inbox_copy(alloc: Global, inbox: &VecDeque<Arrival>) -> Result<Vec<Arrival>, AllocError>
    ensures { IfOk result (λ copies. copies.items ≡ inbox.now.items) }
{
    let mut copies = Vec::with_capacity(alloc, inbox.len())?;
    for arrival in inbox {
        copies.push(arrival.copy(alloc)?)?;
    }
    Ok(copies)
}

impl MachineState {
    /// Returns a copy of the state.
    pub(crate) fn state_view(&self, alloc: Global) -> Result<StateView, AllocError>
        ensures { IfOk result (λ view. view ≡ self.now.state) }
    {
        let flows = self.flows.to_vec(alloc)?;
        let kept = kept_copy(alloc, self.kept.entries())?;
        let inbox = inbox_copy(alloc, &self.inbox)?;
        Ok(StateView {
            flows,
            kept,
            inbox,
            frame: self.frame,
            share: self.share,
            next: self.next,
        })
    }
}

impl StateView {
    /// Returns the state of these parts: the flows under their SFIDs, the cached responses in the order in which their
    /// transactions began, what was received and not handled in its order, the number of the next frame, the share in
    /// force, and the one that waits for its frame.
    pub fn new(
        flows: Vec<(u32, Flow)>,
        kept: Vec<KeptEntry>,
        inbox: Vec<Arrival>,
        frame: u32,
        share: Share,
        next: Option<NextShare>,
    ) -> StateView
        ensures { result ≡ record {
          flows = flows.items;
          kept = kept.items;
          inbox = inbox.items;
          frame = frame;
          share = share;
          next = next;
        } }
    {
        StateView {
            flows,
            kept,
            inbox,
            frame,
            share,
            next,
        }
    }

    /// Returns the flows under their SFIDs: in a copy of a machine's state, ascending.
    pub fn flows(&self) -> &[(u32, Flow)]
        ensures { result.now ≡ self.now.flows }
    {
        self.flows.as_slice()
    }

    /// Returns the responses that are kept, in the order in which their transactions began.
    pub fn cached_responses(&self) -> &[KeptEntry]
        ensures { result.now ≡ self.now.kept }
    {
        self.kept.as_slice()
    }

    /// Returns what was received and not handled, in order.
    pub fn inbox(&self) -> &[Arrival]
        ensures { result.now ≡ self.now.inbox }
    {
        self.inbox.as_slice()
    }

    /// Returns the number of the next frame.
    pub fn frame(&self) -> u32
        ensures { result ≡ self.now.frame }
    {
        self.frame
    }

    /// Returns the slice and the budget in force.
    pub fn share(&self) -> Share
        ensures { result ≡ self.now.share }
    {
        self.share
    }

    /// Returns those that wait for their frame.
    pub fn next(&self) -> Option<NextShare>
        ensures { result ≡ self.now.next }
    {
        self.next
    }
}
