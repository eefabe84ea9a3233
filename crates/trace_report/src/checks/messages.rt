//! The first check of a message that holds.

ghost use Rattle.std.specs.Prelude.{◌≡◌, ◌↔◌, ℕ, List, length, nat_le, find, None, IfSome};
ghost use Rattle.std.specs.List.{list_any};
ghost use Rattle.std.specs.Option.{option_copied};
ghost use Rattle.tlv24.specs.Law.{AreBytes};
ghost use Rattle.dsx_messages.specs.Reading.{message_of};
ghost use Rattle.transactions.specs.Entry.{is_of};
ghost use Rattle.operator_model.specs.declared.heard.Heard.TheVariants as heards;
ghost use Rattle.operator_model.specs.Handle.{handle};
ghost use Rattle.lists.specs.First.{IsFirst};
ghost use Rattle.trace_report.specs.table.Said.{said_by};
ghost use Rattle.trace_report.specs.table.Messages.{HoldsOf, message_table, IsHandledBy};
ghost use Rattle.trace_report.specs.checks.Messages.{HasNoCheck, transaction_in, is_unread, is_of_cmts_in, is_kept_in, is_faulty, is_request, does_hold_of, message_test};

use crate::checks::asking::kind_of;
use crate::checks::operator_snapshot::OperatorSnapshot;
use crate::table::MessageCheck;
use dsx_messages::{Kind, Message, MessageFault, Modem, Request};
use transactions::KeptEntry;

/// The checks of a message in the order of the table (docs/RULES.md).
const MESSAGE_CHECKS: [MessageCheck; 6] = [
    MessageCheck::Unread,
    MessageCheck::OfCmts,
    MessageCheck::Repeated,
    MessageCheck::KeptFull,
    MessageCheck::Faulty,
    MessageCheck::Judged,
];

/// The first transaction ID that is one of the CMTS (CM-SP-MULPIv3.1, 6.4.12: those of a modem have the top bit clear).
const FIRST_OF_CMTS: u16 = 0x8000;

fn tid_of(request: &Request) -> u16
    ensures { result ≡ (said_by request.now).tid }
{
    match request {
        Request::Dsa { tid, flows: _ }
        | Request::Dsc { tid, flows: _ }
        | Request::Dsd { tid, sfid: _ } => *tid,
    }
}

/// Returns the kind and the transaction ID of a request, whose rest was read or is invalid.
fn transaction_in(reading: &Result<Message, MessageFault>) -> Option<(Kind, u16)>
    ensures { result ≡ transaction_in reading.now }
{
    match reading {
        Ok(Message::Request(request)) => Some((kind_of(request), tid_of(request))),
        Err(
            MessageFault::Tlv {
                tid,
                kind,
                id: _,
                fault: _,
            },
        ) => Some((*kind, *tid)),
        Err(
            MessageFault::LeftOut {
                tid,
                kind,
                found: _,
            },
        ) => Some((*kind, *tid)),
        _ => None,
    }
}

/// Returns whether there is no byte, the type is not ours, or the fixed part is short.
fn is_unread(reading: &Result<Message, MessageFault>) -> bool
    ensures { result ≡ is_unread reading.now }
{
    matches!(
        reading,
        Err(MessageFault::Empty | MessageFault::NotOurs { mtype: _ } | MessageFault::Short)
    )
}

fn is_of_cmts(transaction: Option<(Kind, u16)>) -> bool
    ensures { result ≡ is_of_cmts_in transaction }
{
    match transaction {
        None => false,
        Some((_kind, tid)) => FIRST_OF_CMTS <= tid,
    }
}

fn is_of(modem: Modem, tid: u16, entry: &KeptEntry) -> bool
    ensures { result ≡ is_of modem tid entry.now }
{
    entry.modem == modem && entry.tid == tid
}

fn one_is_of(modem: Modem, tid: u16, kept: &[KeptEntry]) -> bool
    ensures { result ≡ list_any (is_of modem tid) kept.now }
{
    kept.iter().any(|entry| is_of(modem, tid, entry))
}

/// Returns whether the rest of a request could not be read.
fn is_faulty(reading: &Result<Message, MessageFault>) -> bool
    ensures { result ≡ is_faulty reading.now }
{
    match reading {
        Err(
            MessageFault::Tlv {
                tid: _,
                kind: _,
                id: _,
                fault: _,
            },
        ) => true,
        Err(
            MessageFault::LeftOut {
                tid: _,
                kind: _,
                found: _,
            },
        ) => true,
        _ => false,
    }
}

fn is_request(reading: &Result<Message, MessageFault>) -> bool
    ensures { result ≡ is_request reading.now }
{
    match reading {
        Ok(Message::Request(_request)) => true,
        _ => false,
    }
}

impl OperatorSnapshot {
    /// Returns whether an entry of the transaction is kept.
    fn is_kept(&self, modem: Modem, transaction: Option<(Kind, u16)>) -> bool
        ensures { result ≡ is_kept_in self.now modem transaction }
    {
        match transaction {
            None => false,
            Some((_kind, tid)) => one_is_of(modem, tid, self.state.cached_responses()),
        }
    }

    /// Returns whether as many transactions are kept as the row allows.
    fn is_kept_full(&self) -> bool
        ensures { result ≡ nat_le self.now.row.transactions (length self.now.state.kept) }
    {
        usize::from(self.row.get_fields().transactions) <= self.state.cached_responses().len()
    }

    /// Returns whether a check of a message holds.
    fn holds_of(
        &self,
        check: MessageCheck,
        modem: Modem,
        reading: &Result<Message, MessageFault>,
    ) -> bool
        ensures { result ≡ does_hold_of check self.now modem reading.now }
    {
        match check {
            MessageCheck::Unread => is_unread(reading),
            MessageCheck::OfCmts => is_of_cmts(transaction_in(reading)),
            MessageCheck::Repeated => self.is_kept(modem, transaction_in(reading)),
            MessageCheck::KeptFull => transaction_in(reading).is_some() && self.is_kept_full(),
            MessageCheck::Faulty => is_faulty(reading),
            MessageCheck::Judged => is_request(reading),
        }
    }

    /// Returns the first of these checks that holds.
    fn first_message_check<'a>(
        &self,
        checks: &'a [MessageCheck],
        modem: Modem,
        reading: &Result<Message, MessageFault>,
    ) -> Option<&'a MessageCheck>
        ensures { option_copied result ≡ find (message_test self.now modem reading.now) checks.now }
    {
        checks
            .iter()
            .find(|check| self.holds_of(**check, modem, reading))
    }

    /// Returns the check that decides a message of a modem, by what it was read as: the first of
    /// the table that holds of the operator as it exists. None where it is an acknowledgement,
    /// which has no table, or if memory ran out when it was read.
    pub fn message_check(
        &self,
        modem: Modem,
        reading: &Result<Message, MessageFault>,
    ) -> Option<MessageCheck>
        // It is the first check of the messages' table that holds.
        ensures first { IfSome result (IsFirst (λ check. HoldsOf check self.now modem reading.now) message_table) }
        // None comes exactly for an acknowledgement, or if reading was out of memory.
        ensures none { (result ≡ None) ↔ HasNoCheck reading.now }
        // Handling the bytes that are read so results in what the check answers.
        ensures decides { IfSome result (λ check. (bytes : List ℕ) → AreBytes bytes → reading.now ≡ message_of bytes
            → IsHandledBy self.now modem reading.now check (handle self.now modem (heards.Message bytes))) }
    {
        // For the proof: what always holds of `self`.
        self.always_sound();
        self.first_message_check(&MESSAGE_CHECKS, modem, reading)
            .copied()
    }
}
