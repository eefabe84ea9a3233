//! What decides what a message is answered.

ghost use Rattle.std.specs.Prelude.{◌≡◌, ◌≢◌, Err, IfOk};
ghost use Rattle.dsx_messages.specs.declared.fault.MessageFault.TheVariants.{NoMemory};
ghost use Rattle.dsx_messages.specs.Reading.{message_of};
ghost use Rattle.trace_report.specs.declared.table.check.MessageCheck.TheVariants.{Judged};
ghost use Rattle.lists.specs.First.{IsFirst};
ghost use Rattle.trace_report.specs.table.Messages.{HoldsOf, message_table};
ghost use Rattle.trace_report.specs.Decision.{first_message, DecidesReading, IsDecisionOf};
ghost use Rattle.trace_report.specs.Names.{decision_name};
ghost use Rattle.trace_report.specs.Trace.{IsCheckNumber};

use crate::checks::OperatorSnapshot;
use crate::names::{check_name, message_check_name};
use crate::table::{Check, MessageCheck};
use dsx_messages::{Message, MessageFault, Modem, read};
use operator_model::{Arrival, Heard};
use std::alloc::{AllocError, Global};

/// The check that decides what a message is answered (docs/RULES.md).
#[derive(Clone, Copy, Debug, PartialEq, Eq)]
pub enum Decision {
    /// A check of a message; never `Judged`, where a check of the request decides.
    Message(MessageCheck),
    /// A check of a request.
    Request(Check),
}

impl Decision {
    /// Returns the number of the check in the table of docs/RULES.md.
    pub fn number(self) -> u8
        ensures { IsCheckNumber self result }
    {
        match self {
            Decision::Message(check) => check.number(),
            Decision::Request(check) => check.number(),
        }
    }

    /// Returns the name of the check, as a trace has it.
    pub fn name(self) -> &'static str
        ensures { result.now ≡ decision_name self }
    {
        match self {
            Decision::Message(check) => message_check_name(check),
            Decision::Request(check) => check_name(check),
        }
    }
}

/// Returns what a message says, or its first fault, where memory was not wanting.
fn reading_of(alloc: Global, bytes: &[u8]) -> Result<Result<Message, MessageFault>, AllocError>
    ensures read { IfOk result (λ reading. reading ≡ message_of bytes.now) }
    ensures memory { IfOk result (λ reading. reading ≢ Err NoMemory) }
{
    match read(alloc, bytes) {
        Ok(message) => Ok(Ok(message)),
        Err(fault) => match fault {
            MessageFault::NoMemory => Err(AllocError),
            _ => Ok(Err(fault)),
        },
    }
}

/// Returns what decides a message of which no check but the last holds: a check of the request that
/// it says.
fn decide_message(
    alloc: Global,
    operator_snapshot: &OperatorSnapshot,
    modem: Modem,
    reading: &Result<Message, MessageFault>,
) -> Result<Option<Decision>, AllocError>
    requires { IsFirst (λ check. HoldsOf check operator_snapshot.now modem reading.now) message_table Judged }
    ensures { IfOk result (λ decision. DecidesReading operator_snapshot.now modem reading.now decision) }
{
    match reading {
        Ok(Message::Request(request)) => {
            let check = operator_snapshot.deciding_check(alloc, modem, request)?;
            Ok(Some(Decision::Request(check)))
        }
        Ok(
            Message::Ack {
                kind: _,
                tid: _,
                code: _,
            },
        ) => unreachable!(),
        Err(_fault) => unreachable!(),
    }
}

/// Returns what decides a message of a modem.
fn decision_in(
    alloc: Global,
    operator_snapshot: &OperatorSnapshot,
    modem: Modem,
    bytes: &[u8],
) -> Result<Option<Decision>, AllocError>
    ensures { IfOk result (λ decision. DecidesReading operator_snapshot.now modem (message_of bytes.now) decision) }
{
    let reading = reading_of(alloc, bytes)?;
    let Some(check) = operator_snapshot.message_check(modem, &reading) else {
        return Ok(None);
    };
    match check {
        MessageCheck::Judged => decide_message(alloc, operator_snapshot, modem, &reading),
        _ => Ok(Some(Decision::Message(check))),
    }
}

/// Returns what decides the first of the inbox.
pub(crate) fn decision_at(
    alloc: Global,
    operator_snapshot: &OperatorSnapshot,
) -> Result<Option<Decision>, AllocError>
    ensures { IfOk result (λ decision. IsDecisionOf (first_message operator_snapshot.now operator_snapshot.now.state.inbox) decision) }
{
    match operator_snapshot.state().inbox().first() {
        None => Ok(None),
        Some(
            Arrival {
                modem: _,
                heard: Heard::Request {
                    sid: _,
                    minislots: _,
                },
            },
        ) => Ok(None),
        Some(
            Arrival {
                modem,
                heard: Heard::Message(bytes),
            },
        ) => decision_in(alloc, operator_snapshot, *modem, bytes.as_slice()),
    }
}
