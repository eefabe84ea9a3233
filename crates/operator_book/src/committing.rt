//! How a plan is committed.

ghost use Rattle.std.specs.Prelude.{◌≡◌, ℕ, ◌<◌, Some, drop, length, find, position, IsNone, IfOk, OnOk, OnErr};
ghost use Rattle.transactions.specs.Entry.{is_of, waits_for};
ghost use Rattle.flow_table.specs.Flow.{flow_after_ack, flow_after_request};
ghost use Rattle.operator_model.specs.Changed.{with_flows, with_change, with_inbox};
ghost use Rattle.operator_model.specs.Handle.{undone, flows_after, ack_result};
ghost use Rattle.operator_book.specs.Held.{flow_table_of, verdict_of, MayPut};
ghost use Rattle.operator_book.specs.Planned.{MayCommit, MayHandle, MayRespond, after_effect, state_after_handling, state_after_response};

use crate::boxed_verdict::BoxedVerdict;
use crate::machine::MachineState;
use crate::plan::{Effect, HandledEffect, Plan};
use crate::tick_memory::TickMemory;
use dsx_messages::{Kind, Modem};
use operator_model::Output;
use std::alloc::AllocError;
use tlv24::Bytes;

impl MachineState {
    /// Commits a plan, and returns its outputs. The memory of a tick's grants is given back. If memory
    /// runs out nothing changes.
    #[inline(always)]
    pub(crate) fn commit(
        &mut self,
        plan: Plan,
        memory: &mut TickMemory,
    ) -> Result<Vec<Output>, AllocError>
        requires { MayCommit self.old plan.effect }
        ensures state { OnOk result (self.new ≡ after_effect self.old plan.effect) }
        ensures outputs { IfOk result (λ outputs. outputs.items ≡ plan.outputs.items) }
        ensures err { OnErr result (self.new ≡ self.old) }
    {
        let Plan { outputs, effect } = plan;
        self.commit_effect(effect, memory)?;
        Ok(outputs)
    }

    /// Makes the effect of a plan.
    #[inline(always)]
    fn commit_effect(&mut self, effect: Effect, memory: &mut TickMemory) -> Result<(), AllocError>
        requires { MayCommit self.old effect }
        ensures ok { OnOk result (self.new ≡ after_effect self.old effect) }
        ensures err { OnErr result (self.new ≡ self.old) }
    {
        match effect {
            Effect::Nothing => Ok(()),
            Effect::Received(arrival) => {
                self.inbox.reserve(1)?;
                self.inbox.push_back_reserved(arrival);
                Ok(())
            }
            Effect::Handled(effect) => {
                self.commit_handled(effect)?;
                self.take_first();
                Ok(())
            }
            Effect::Ticked { granted, given_up } => {
                self.pass_frame(granted.as_slice(), given_up.as_slice());
                memory.take_back_grants(granted);
                Ok(())
            }
            Effect::Resliced { from, row } => {
                self.reslice(from, row);
                Ok(())
            }
        }
    }

    /// Makes the effect of what is handled, except that it stays in the inbox.
    #[inline(always)]
    fn commit_handled(&mut self, effect: HandledEffect) -> Result<(), AllocError>
        requires { MayHandle self.old effect }
        ensures ok { OnOk result (self.new ≡ record self.old { state = state_after_handling effect self.old }) }
        ensures err { OnErr result (self.new ≡ self.old) }
    {
        match effect {
            HandledEffect::Nothing => Ok(()),
            HandledEffect::Response {
                modem,
                tid,
                kind,
                reply,
                verdict,
            } => self.respond(modem, tid, kind, reply, verdict),
            HandledEffect::Acknowledged {
                place,
                modem: _,
                tid: _,
                kind,
                code,
            } => {
                self.acknowledge(place, kind, code);
                Ok(())
            }
            HandledEffect::Requested { sfid, minislots } => {
                self.request(sfid, minislots);
                Ok(())
            }
        }
    }

    /// Takes what was received first out of the inbox.
    pub(crate) fn take_first(&mut self)
        ensures { self.new ≡ with_inbox self.old (drop 1 self.old.state.inbox) }
    {
        let _first = self.inbox.pop_front();
    }

    /// Makes a verdict's change to the flows, and caches its reply.
    #[inline(always)]
    fn respond(
        &mut self,
        modem: Modem,
        tid: u16,
        kind: Kind,
        reply: Bytes,
        verdict: BoxedVerdict,
    ) -> Result<(), AllocError>
        requires { MayRespond self.old modem tid (verdict_of verdict) }
        ensures ok { OnOk result (self.new ≡ record self.old { state = state_after_response self.old modem tid kind reply (verdict_of verdict) }) }
        ensures err { OnErr result (self.new ≡ self.old) }
    {
        let (sfid, waits) = (verdict.sfid(), verdict.does_wait());
        self.change_flows(verdict)?;
        self.kept.begin_new(modem, tid, kind, reply, sfid, waits);
        Ok(())
    }

    /// Makes a verdict's change to the flows.
    #[inline(always)]
    fn change_flows(&mut self, verdict: BoxedVerdict) -> Result<(), AllocError>
        requires { MayPut (flow_table_of self.old) (verdict_of verdict) }
        ensures ok { OnOk result (self.new ≡ with_flows self.old (flows_after (verdict_of verdict) self.old.state.flows)) }
        ensures err { OnErr result (self.new ≡ self.old) }
    {
        match verdict {
            BoxedVerdict::Refused { reply: _ } => Ok(()),
            BoxedVerdict::Put {
                sfid,
                flow,
                reply: _,
            } => self.flows.put_flow(sfid, flow),
            BoxedVerdict::Deleted { sfid, reply: _ } => {
                self.flows.remove(sfid);
                Ok(())
            }
        }
    }

    /// Takes the acknowledgement for which the response at `place` waits: code 0 commits what waits
    /// of the flow, another undoes it.
    fn acknowledge(&mut self, place: usize, kind: Kind, code: u8)
        requires { place < length self.old.state.kept }
        ensures { (modem : Modem) (tid : ℕ) → position (waits_for modem tid kind) self.old.state.kept ≡ Some place
            → self.new ≡ record self.old { state = (ack_result self.old modem tid kind code).state } }
    {
        let sfid = self.kept.acked_at(place);
        if code == 0 {
            self.commit_pending(sfid);
        } else {
            self.undo(kind, sfid);
        }
    }

    /// Makes the pending sets of a flow its sets.
    fn commit_pending(&mut self, sfid: u32)
        ensures { self.new ≡ with_change self.old sfid (flow_after_ack self.old.state.frame) }
    {
        self.flows.acknowledge(sfid, self.frame);
    }

    /// Undoes what a transaction asked for.
    pub(crate) fn undo(&mut self, kind: Kind, sfid: u32)
        ensures { self.new ≡ with_flows self.old (undone kind sfid self.old.state.flows) }
    {
        match kind {
            Kind::Dsa => self.flows.remove(sfid),
            Kind::Dsc => self.flows.take_back(sfid),
            Kind::Dsd => {}
        }
    }

    /// Replaces the backlog of a flow.
    pub(crate) fn request(&mut self, sfid: u32, minislots: u16)
        ensures { self.new ≡ with_change self.old sfid (flow_after_request minislots self.old.state.frame) }
    {
        self.flows.request(sfid, minislots, self.frame);
    }
}
