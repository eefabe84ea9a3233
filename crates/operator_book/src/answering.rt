//! How a request is answered: the plan of its reply.

ghost use Rattle.std.specs.Prelude.{◌≡◌, ◌≢◌, ◌∷◌, [], ◌<◌, IsNone, Ok, IfOk, IfSome, IfNone, length, find};
ghost use Rattle.dsx_messages.specs.declared.code.Code.TheVariants.{Okay};
ghost use Rattle.dsx_messages.specs.declared.message.Message.TheVariants as messages;
ghost use Rattle.transactions.specs.Entry.{is_of};
ghost use Rattle.operator_model.specs.declared.output.Output.TheVariants as outputs;
ghost use Rattle.operator_model.specs.Asked.{refusal};
ghost use Rattle.operator_model.specs.Handle.{reply_output, carried_out, IsAnswered, IsCarriedOut, message_handled, tid_of, kind_of};
ghost use Rattle.operator_book.specs.Held.{flow_table_of, verdict_of, HasOwnSids, MayPut};
ghost use Rattle.operator_book.specs.Planned.{IsPlanOfFirst};

use crate::boxed_verdict::BoxedVerdict;
use crate::machine::MachineState;
use crate::plan::{Effect, HandledEffect, Plan, SpareOutputs, single};
use crate::refusal::refusal;
use dsx_messages::{Code, Kind, Modem, Request, reply_bytes};
use operator_model::{Cause, Output};
use std::alloc::{AllocError, Global};
use tlv24::Bytes;

fn kind_of(request: &Request) -> Kind
    ensures { result ≡ kind_of request.now }
{
    match request {
        Request::Dsa { tid: _, flows: _ } => Kind::Dsa,
        Request::Dsc { tid: _, flows: _ } => Kind::Dsc,
        Request::Dsd { tid: _, sfid: _ } => Kind::Dsd,
    }
}

fn tid_of(request: &Request) -> u16
    ensures { result ≡ tid_of request.now }
{
    match request {
        Request::Dsa { tid, flows: _ }
        | Request::Dsc { tid, flows: _ }
        | Request::Dsd { tid, sfid: _ } => *tid,
    }
}

/// Returns the output of a reply that was cached before.
#[inline(always)]
fn repeated_reply(alloc: Global, modem: Modem, reply: &Bytes) -> Result<Output, AllocError>
    ensures { IfOk result (λ output. output ≡ outputs.Reply modem reply.now) }
{
    let bytes = reply.copy(alloc)?;
    Ok(Output::Reply { modem, bytes })
}

/// Returns the output of a refusal that is not cached.
fn uncached_refusal(modem: Modem, kind: Kind, tid: u16, code: Code) -> Output
    requires { code ≢ Okay }
    ensures { result ∷ [] ≡ reply_output modem (refusal kind tid code) }
{
    let bytes = Bytes::from_short(reply_bytes(&refusal(kind, tid, code)));
    Output::Reply { modem, bytes }
}

impl MachineState {
    /// Plans to carry out a verdict: its reply is output, and cached when the plan is committed.
    #[inline(always)]
    pub(crate) fn response_plan(
        &self,
        spare: SpareOutputs,
        modem: Modem,
        kind: Kind,
        tid: u16,
        verdict: BoxedVerdict,
    ) -> Result<Plan, AllocError>
        requires puts { MayPut (flow_table_of self.now) (verdict_of verdict) }
        requires free { IsNone (find (is_of modem tid) self.now.state.kept) }
        requires room { length self.now.state.kept < self.now.row.transactions }
        ensures { IfOk result (IsPlanOfFirst self.now (carried_out self.now modem kind tid (verdict_of verdict))) }
    {
        let cached = reply_bytes(verdict.reply());
        let reply = Bytes::from_short(cached.copy());
        let bytes = Bytes::from_short(cached);
        let outputs = single(spare, Output::Reply { modem, bytes })?;
        Ok(Plan {
            outputs,
            effect: Effect::Handled(HandledEffect::Response {
                modem,
                tid,
                kind,
                reply,
                verdict,
            }),
        })
    }

    /// Returns the output that answers a request that is not judged: its transaction ID is of the
    /// CMTS's half, it is cached already, or as many are cached as the row allows. None if its
    /// transaction is new.
    #[inline(always)]
    pub(crate) fn early_answer(
        &self,
        alloc: Global,
        modem: Modem,
        kind: Kind,
        tid: u16,
    ) -> Result<Option<Output>, AllocError>
        ensures told { IfOk result (λ early. IfSome early
            (λ told. IsAnswered self.now modem kind tid (told ∷ []))) }
        ensures new { IfOk result (λ early. IfNone early (IsCarriedOut self.now modem kind tid)) }
    {
        if tid >= 0x8000 {
            let told = uncached_refusal(modem, kind, tid, Code::RejectUnknownTransaction);
            return Ok(Some(told));
        }
        if let Some(entry) = self.kept.find(modem, tid) {
            let told = if entry.kind == kind {
                repeated_reply(alloc, modem, &entry.reply)?
            } else {
                Output::Silent {
                    modem: Some(modem),
                    cause: Cause::TidInUse,
                }
            };
            return Ok(Some(told));
        }
        if self.kept.len() >= usize::from(self.row.get_fields().transactions) {
            let told = uncached_refusal(modem, kind, tid, Code::RejectTemporary);
            return Ok(Some(told));
        }
        Ok(None)
    }

    /// Plans a request that was read.
    pub(crate) fn request_plan(
        &self,
        alloc: Global,
        spare: SpareOutputs,
        modem: Modem,
        request: &Request,
    ) -> Result<Plan, AllocError>
        requires { HasOwnSids self.now }
        ensures { IfOk result (IsPlanOfFirst self.now (message_handled self.now modem (Ok (messages.Request request.now)))) }
    {
        let kind = kind_of(request);
        let tid = tid_of(request);
        if let Some(output) = self.early_answer(alloc, modem, kind, tid)? {
            return Ok(Plan {
                outputs: single(spare, output)?,
                effect: Effect::Handled(HandledEffect::Nothing),
            });
        }
        let verdict = self.verdict(alloc, modem, request)?;
        self.response_plan(spare, modem, kind, tid, verdict)
    }
}
