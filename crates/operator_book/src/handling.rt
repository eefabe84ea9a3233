//! The plan of what was received: to take it in, and to handle it.

ghost use Rattle.std.specs.Prelude.{◌≡◌, ◌↔◌, ℕ, Some, Result, Ok, Err, IfOk, IfErr, OnOk, OnErr};
ghost use Rattle.dsx_messages.specs.declared.message.Message.{Message};
ghost use Rattle.dsx_messages.specs.declared.fault.MessageFault.{MessageFault};
ghost use Rattle.lists.specs.Results.{Fails, Gives};
ghost use Rattle.dsx_messages.specs.Reading.{message_cause};
ghost use Rattle.operator_model.specs.declared.verdict.Verdict.TheVariants.{Refused};
ghost use Rattle.operator_model.specs.Handle.{silent, transaction_result, ack_result, message_handled, bandwidth_request_result};
ghost use Rattle.operator_model.specs.Machine.{work_result, arrival_result};
ghost use Rattle.operator_book.specs.Held.{HasOwnSids, HasRightId};
ghost use Rattle.operator_book.specs.Planned.{IsFirstRequest, IsPlanFor, IsPlanOfFirst, requested, without_first};

use crate::boxed_verdict::BoxedVerdict;
use crate::machine::MachineState;
use crate::plan::{Effect, HandledEffect, Plan, SpareOutputs, single};
use crate::refusal::{encoding_refusal, refusal};
use dsx_messages::{Code, Kind, Message, MessageFault, Modem, Reply, Request, read};
use operator_model::{Arrival, Cause, Heard, Output};
use std::alloc::{AllocError, Global};

/// A bandwidth request that was received first.
#[derive(Clone, Copy, Debug, PartialEq, Eq)]
pub struct FirstRequest {
    /// The modem that it came from.
    pub modem: Modem,
    /// The SID that it names.
    pub sid: u16,
    /// The minislots that it asks for.
    pub minislots: u16,
}

impl MachineState {
    /// Plans that what was received first gets no reply, for this cause.
    #[inline(always)]
    fn silent_plan(
        &self,
        spare: SpareOutputs,
        modem: Modem,
        cause: Cause,
    ) -> Result<Plan, AllocError>
        ensures { IfOk result (IsPlanOfFirst self.now (silent self.now.state modem cause)) }
    {
        let modem = Some(modem);
        let outputs = single(spare, Output::Silent { modem, cause })?;
        Ok(Plan {
            outputs,
            effect: Effect::Handled(HandledEffect::Nothing),
        })
    }

    /// Plans to refuse with this reply a request that could not be read.
    fn fault_plan(
        &self,
        alloc: Global,
        spare: SpareOutputs,
        modem: Modem,
        kind: Kind,
        tid: u16,
        reply: Reply,
    ) -> Result<Plan, AllocError>
        ensures { IfOk result (IsPlanOfFirst self.now (transaction_result self.now modem kind tid (Refused reply))) }
    {
        if let Some(output) = self.early_answer(alloc, modem, kind, tid)? {
            return Ok(Plan {
                outputs: single(spare, output)?,
                effect: Effect::Handled(HandledEffect::Nothing),
            });
        }
        self.response_plan(spare, modem, kind, tid, BoxedVerdict::Refused { reply })
    }

    /// Plans an acknowledgement: code 0 commits, another takes back.
    fn ack_plan(
        &self,
        spare: SpareOutputs,
        modem: Modem,
        tid: u16,
        kind: Kind,
        code: u8,
    ) -> Result<Plan, AllocError>
        ensures { IfOk result (IsPlanOfFirst self.now (ack_result self.now modem tid kind code)) }
    {
        let Some(place) = self.kept.waiting_place(modem, tid, kind) else {
            return self.silent_plan(spare, modem, Cause::UnknownAck);
        };
        Ok(Plan {
            outputs: spare.into_list(),
            effect: Effect::Handled(HandledEffect::Acknowledged {
                place,
                modem,
                tid,
                kind,
                code,
            }),
        })
    }

    /// Returns the SFID of the flow whose backlog a bandwidth request of a modem replaces, or why it
    /// replaces none.
    #[inline(always)]
    fn requested_flow(&self, modem: Modem, sid: u16) -> Result<u32, Cause>
        ensures { (minislots : ℕ) → bandwidth_request_result self.now modem sid minislots
            ≡ requested self.now modem minislots result }
    {
        let Some(asker) = self.flows.asker(sid) else {
            return Err(Cause::NoSuchSid);
        };
        if asker.modem != modem {
            return Err(Cause::NoSuchSid);
        }
        if asker.may_ask {
            Ok(asker.sfid)
        } else {
            Err(Cause::NotRequesting)
        }
    }

    /// Plans a bandwidth request of a modem.
    fn bandwidth_request_plan(
        &self,
        spare: SpareOutputs,
        modem: Modem,
        sid: u16,
        minislots: u16,
    ) -> Result<Plan, AllocError>
        ensures { IfOk result (IsPlanOfFirst self.now (bandwidth_request_result self.now modem sid minislots)) }
    {
        match self.requested_flow(modem, sid) {
            Err(cause) => self.silent_plan(spare, modem, cause),
            Ok(sfid) => Ok(Plan {
                outputs: spare.into_list(),
                effect: Effect::Handled(HandledEffect::Requested { sfid, minislots }),
            }),
        }
    }

    /// Plans a message that could not be read.
    fn unread_plan(
        &self,
        alloc: Global,
        spare: SpareOutputs,
        modem: Modem,
        fault: MessageFault,
    ) -> Result<Plan, AllocError>
        requires { HasRightId fault }
        ensures plan { IfOk result (IsPlanOfFirst self.now (message_handled self.now modem (Err fault))) }
        ensures told { OnOk result ((read : Result Message MessageFault) → Fails (message_cause fault) read → read ≡ Err fault) }
    {
        match fault {
            MessageFault::NoMemory => Err(AllocError),
            MessageFault::Empty => self.silent_plan(spare, modem, Cause::Empty),
            MessageFault::NotOurs { mtype: _ } => self.silent_plan(spare, modem, Cause::NotOurs),
            MessageFault::Short => self.silent_plan(spare, modem, Cause::Short),
            MessageFault::Tlv {
                tid,
                kind,
                id,
                fault,
            } => {
                let reply = encoding_refusal(kind, tid, id, fault);
                self.fault_plan(alloc, spare, modem, kind, tid, reply)
            }
            MessageFault::LeftOut {
                tid,
                kind,
                found: _,
            } => {
                let reply = refusal(kind, tid, Code::RejectUnrecognizedSetting);
                self.fault_plan(alloc, spare, modem, kind, tid, reply)
            }
        }
    }

    /// Plans what a message says.
    fn message_plan(
        &self,
        alloc: Global,
        spare: SpareOutputs,
        modem: Modem,
        message: &Message,
    ) -> Result<Plan, AllocError>
        requires { HasOwnSids self.now }
        ensures { IfOk result (IsPlanOfFirst self.now (message_handled self.now modem (Ok message.now))) }
    {
        match message {
            Message::Request(request) => self.request_plan(alloc, spare, modem, request),
            Message::Ack { kind, tid, code } => self.ack_plan(spare, modem, *tid, *kind, *code),
        }
    }

    /// Plans bytes that were read, or why they were not.
    fn read_plan(
        &self,
        alloc: Global,
        spare: SpareOutputs,
        modem: Modem,
        said: Result<Message, MessageFault>,
    ) -> Result<Plan, AllocError>
        requires sids { HasOwnSids self.now }
        requires right { IfErr said HasRightId }
        ensures { (read : Result Message MessageFault) → Gives message_cause (λ m. m) said read
            → IfOk result (IsPlanOfFirst self.now (message_handled self.now modem read)) }
    {
        match said {
            Ok(message) => self.message_plan(alloc, spare, modem, &message),
            Err(fault) => self.unread_plan(alloc, spare, modem, fault),
        }
    }

    /// Plans to handle what was received first, and to take it out of the inbox.
    #[inline(always)]
    pub(crate) fn work_plan(&self, alloc: Global, spare: SpareOutputs) -> Result<Plan, AllocError>
        requires { HasOwnSids self.now }
        ensures { IfOk result (IsPlanFor self.now (work_result self.now self.now.state.inbox)) }
    {
        let Some(first) = self.inbox.front() else {
            return Ok(Plan {
                outputs: single(
                    spare,
                    Output::Silent {
                        modem: None,
                        cause: Cause::Idle,
                    },
                )?,
                effect: Effect::Nothing,
            });
        };
        let modem = first.modem;
        match &first.heard {
            Heard::Message(bytes) => {
                self.read_plan(alloc, spare, modem, read(alloc, bytes.as_slice()))
            }
            Heard::Request { sid, minislots } => {
                self.bandwidth_request_plan(spare, modem, *sid, *minislots)
            }
        }
    }

    /// Plans to put what was received at the end of the inbox. A full inbox drops it.
    #[inline(always)]
    pub(crate) fn arrival_plan(
        &self,
        spare: SpareOutputs,
        modem: Modem,
        heard: Heard,
    ) -> Result<Plan, AllocError>
        ensures { IfOk result (IsPlanFor self.now (arrival_result self.now modem heard)) }
    {
        if self.inbox.len() >= usize::from(self.row.get_fields().inbox) {
            let modem = Some(modem);
            let cause = Cause::InboxFull;
            return Ok(Plan {
                outputs: single(spare, Output::Silent { modem, cause })?,
                effect: Effect::Nothing,
            });
        }
        Ok(Plan {
            outputs: spare.into_list(),
            effect: Effect::Received(Arrival { modem, heard }),
        })
    }

    /// Puts what was received at the end of the inbox, and returns the outputs of that. A full inbox
    /// drops it. If memory runs out nothing changes.
    #[inline(always)]
    pub(crate) fn receive(
        &mut self,
        alloc: Global,
        modem: Modem,
        heard: Heard,
    ) -> Result<Vec<Output>, AllocError>
        ensures state { OnOk result (self.new ≡ record self.old { state = (arrival_result self.old modem heard).state }) }
        ensures outputs { IfOk result (λ outputs. outputs.items ≡ (arrival_result self.old modem heard).outputs) }
        ensures err { OnErr result (self.new ≡ self.old) }
    {
        if self.inbox.len() >= usize::from(self.row.get_fields().inbox) {
            let modem = Some(modem);
            let cause = Cause::InboxFull;
            return single(SpareOutputs::new(alloc), Output::Silent { modem, cause });
        }
        self.inbox.reserve(1)?;
        self.inbox.push_back_reserved(Arrival { modem, heard });
        Ok(Vec::new(alloc))
    }

    /// Handles a bandwidth request that was received first, and takes it out of the inbox. Returns
    /// the outputs of that. If memory runs out nothing changes.
    #[inline(always)]
    fn take_requested(
        &mut self,
        alloc: Global,
        modem: Modem,
        sid: u16,
        minislots: u16,
    ) -> Result<Vec<Output>, AllocError>
        ensures state { OnOk result (self.new ≡ record self.old {
          state = without_first (bandwidth_request_result self.old modem sid minislots).state;
        }) }
        ensures outputs { IfOk result (λ outputs. outputs.items
            ≡ (bandwidth_request_result self.old modem sid minislots).outputs) }
        ensures err { OnErr result (self.new ≡ self.old) }
    {
        match self.requested_flow(modem, sid) {
            Err(cause) => {
                let modem = Some(modem);
                let spare = SpareOutputs::new(alloc);
                let outputs = single(spare, Output::Silent { modem, cause })?;
                self.take_first();
                Ok(outputs)
            }
            Ok(sfid) => {
                self.request(sfid, minislots);
                self.take_first();
                Ok(Vec::new(alloc))
            }
        }
    }

    /// Returns what was received first, if that is a bandwidth request.
    #[inline(always)]
    pub(crate) fn first_request(&self) -> Option<FirstRequest>
        ensures { (first : FirstRequest) → (result ≡ Some first) ↔ IsFirstRequest self.now.state.inbox first }
    {
        let first = self.inbox.front()?;
        match &first.heard {
            Heard::Message(_bytes) => None,
            Heard::Request { sid, minislots } => Some(FirstRequest {
                modem: first.modem,
                sid: *sid,
                minislots: *minislots,
            }),
        }
    }

    /// Handles the bandwidth request that was received first, and takes it out of the inbox. Returns
    /// the outputs of that. If memory runs out nothing changes.
    #[inline(always)]
    pub(crate) fn take_request(
        &mut self,
        alloc: Global,
        first: FirstRequest,
    ) -> Result<Vec<Output>, AllocError>
        requires { IsFirstRequest self.old.state.inbox first }
        ensures state { OnOk result (self.new ≡ record self.old { state = (work_result self.old self.old.state.inbox).state }) }
        ensures outputs { IfOk result (λ outputs. outputs.items ≡ (work_result self.old self.old.state.inbox).outputs) }
        ensures err { OnErr result (self.new ≡ self.old) }
    {
        self.take_requested(alloc, first.modem, first.sid, first.minislots)
    }
}
