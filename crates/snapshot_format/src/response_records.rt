//! The records of cached responses and of what was received.

ghost use Rattle.std.specs.Prelude.{◌≡◌};
ghost use Rattle.std.specs.List.{list_any};
ghost use Rattle.transactions.specs.Entry.{is_of};
ghost use Rattle.lists.specs.Results.{Gives};
ghost use Rattle.snapshot_format.specs.Reading.{read_cause};
ghost use Rattle.snapshot_format.specs.Records.{kind_in, take_kind, state_in, take_state, is_timed, take_entry, take_entries, take_message, take_request, take_arrival, take_arrivals};

use crate::fault::{ReadFault, Wrong};
use crate::fields::{
    stop_at, take_byte, take_bytes, take_field, take_literal, take_long, take_modem, take_short,
};
use dsx_messages::{Kind, Modem};
use lists::Listed;
use operator_model::{Arrival, Heard};
use std::alloc::Global;
use transactions::{KeptEntry, ResponseState};

/// Returns the kind of transaction that a field names.
fn kind_in(field: &[u8]) -> Result<Kind, Wrong>
    ensures { result ≡ kind_in field.now }
{
    if field == b"dsa".as_slice() {
        Ok(Kind::Dsa)
    } else if field == b"dsc".as_slice() {
        Ok(Kind::Dsc)
    } else if field == b"dsd".as_slice() {
        Ok(Kind::Dsd)
    } else {
        Err(Wrong::Shape)
    }
}

/// Returns a kind of transaction, and what is after it.
#[tactic(auto, unfolding(crate::specs::Records::take_kind))]
fn take_kind(bytes: &[u8]) -> Result<(Kind, &[u8]), ReadFault>
    ensures { Gives read_cause (λ x. (x.0, x.1.now)) result (take_kind bytes.now) }
{
    let (field, rest) = take_field(bytes, b' ')?;
    match kind_in(field) {
        Ok(kind) => Ok((kind, rest)),
        Err(wrong) => Err(stop_at(wrong, bytes)),
    }
}

/// Returns the state of a response that a field names.
fn state_in(field: &[u8]) -> Result<ResponseState, Wrong>
    ensures { result ≡ state_in field.now }
{
    if field == b"waiting".as_slice() {
        Ok(ResponseState::Waiting)
    } else if field == b"held".as_slice() {
        Ok(ResponseState::Held)
    } else {
        Err(Wrong::Shape)
    }
}

/// Returns the state of a response, and what is after it.
#[tactic(auto, unfolding(crate::specs::Records::take_state))]
fn take_state(bytes: &[u8]) -> Result<(ResponseState, &[u8]), ReadFault>
    ensures { Gives read_cause (λ x. (x.0, x.1.now)) result (take_state bytes.now) }
{
    let (field, rest) = take_field(bytes, b' ')?;
    match state_in(field) {
        Ok(standing) => Ok((standing, rest)),
        Err(wrong) => Err(stop_at(wrong, bytes)),
    }
}

/// Returns whether the time of a response has not ended, and where it is held no resend is left.
fn is_timed(entry: &KeptEntry) -> bool
    ensures { result ≡ is_timed entry.now }
{
    entry.ticks_left >= 1 && (entry.standing == ResponseState::Waiting || entry.resends_left == 0)
}

/// Returns a cached response, and what is after its line.
#[tactic(auto, unfolding(crate::specs::Records::take_entry))]
fn take_entry(alloc: Global, bytes: &[u8]) -> Result<(KeptEntry, &[u8]), ReadFault>
    ensures { Gives read_cause (λ x. (x.0, x.1.now)) result (take_entry bytes.now) }
{
    let rest = take_literal(bytes, b"response ")?;
    let (modem, rest) = take_modem(rest, b' ')?;
    let (tid, rest) = take_short(rest, b' ')?;
    let (kind, rest) = take_kind(rest)?;
    let (sfid, rest) = take_long(rest, b' ')?;
    let (standing, rest) = take_state(rest)?;
    let (ticks_left, rest) = take_short(rest, b' ')?;
    let (resends_left, rest) = take_byte(rest, b' ')?;
    let (reply, rest) = take_bytes(alloc, rest, b'\n')?;
    let entry = KeptEntry {
        modem,
        tid,
        kind,
        reply,
        sfid,
        standing,
        ticks_left,
        resends_left,
    };
    if is_timed(&entry) {
        Ok((entry, rest))
    } else {
        Err(stop_at(Wrong::Range, bytes))
    }
}

/// Returns whether one of the responses is of this transaction.
fn has_transaction(entries: &[KeptEntry], modem: Modem, tid: u16) -> bool
    ensures { result ≡ list_any (is_of modem tid) entries.now }
{
    entries
        .iter()
        .any(|entry| entry.modem == modem && entry.tid == tid)
}

/// Returns so many cached responses, each of another transaction, and what is after them.
#[tactic(auto, unfolding(crate::specs::Records::take_entries))]
pub(crate) fn take_entries(
    alloc: Global,
    count: u16,
    bytes: &[u8],
) -> Result<(Listed<KeptEntry>, &[u8]), ReadFault>
    ensures { Gives read_cause (λ x. (x.0, x.1.now)) result (take_entries count bytes.now) }
{
    let mut entries = Vec::new(alloc);
    let mut rest = bytes;
    for _ in 0..count {
        let (entry, after) = take_entry(alloc, rest)?;
        if has_transaction(&entries, entry.modem, entry.tid) {
            return Err(stop_at(Wrong::Repeated, rest));
        }
        entries.push(entry)?;
        rest = after;
    }
    Ok((Listed::from_vec(entries), rest))
}

/// Returns a message that was received, and what is after its line.
#[tactic(auto, unfolding(crate::specs::Records::take_message))]
fn take_message(alloc: Global, bytes: &[u8]) -> Result<(Arrival, &[u8]), ReadFault>
    ensures { Gives read_cause (λ x. (x.0, x.1.now)) result (take_message bytes.now) }
{
    let (modem, rest) = take_modem(bytes, b' ')?;
    let (message, rest) = take_bytes(alloc, rest, b'\n')?;
    let heard = Heard::Message(message);
    Ok((Arrival { modem, heard }, rest))
}

/// Returns a bandwidth request that was received, and what is after its line.
#[tactic(auto, unfolding(crate::specs::Records::take_request))]
fn take_request(bytes: &[u8]) -> Result<(Arrival, &[u8]), ReadFault>
    ensures { Gives read_cause (λ x. (x.0, x.1.now)) result (take_request bytes.now) }
{
    let (modem, rest) = take_modem(bytes, b' ')?;
    let (sid, rest) = take_short(rest, b' ')?;
    let (minislots, rest) = take_short(rest, b'\n')?;
    let heard = Heard::Request { sid, minislots };
    Ok((Arrival { modem, heard }, rest))
}

/// Returns what was received, and what is after its line.
#[tactic(auto, unfolding(crate::specs::Records::take_arrival))]
fn take_arrival(alloc: Global, bytes: &[u8]) -> Result<(Arrival, &[u8]), ReadFault>
    ensures { Gives read_cause (λ x. (x.0, x.1.now)) result (take_arrival bytes.now) }
{
    if let Some(rest) = bytes.strip_prefix(b"message ") {
        return take_message(alloc, rest);
    }
    let rest = take_literal(bytes, b"request ")?;
    take_request(rest)
}

/// Returns so many arrivals, and what is after them.
#[tactic(auto, unfolding(crate::specs::Records::take_arrivals))]
pub(crate) fn take_arrivals(
    alloc: Global,
    count: u16,
    bytes: &[u8],
) -> Result<(Listed<Arrival>, &[u8]), ReadFault>
    ensures { Gives read_cause (λ x. (x.0, x.1.now)) result (take_arrivals count bytes.now) }
{
    let mut arrivals = Vec::new(alloc);
    let mut rest = bytes;
    for _ in 0..count {
        let (arrival, after) = take_arrival(alloc, rest)?;
        arrivals.push(arrival)?;
        rest = after;
    }
    Ok((Listed::from_vec(arrivals), rest))
}
