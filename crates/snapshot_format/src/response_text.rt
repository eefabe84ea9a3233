//! The text of cached responses and of what was received.

ghost use Rattle.std.specs.Prelude.{◌≡◌, ◌++◌, OnOk};
ghost use Rattle.std.specs.List.{flat_map};
ghost use Rattle.std.specs.String.{string_bytes};
ghost use Rattle.snapshot_format.specs.Text.{bytes_text, kind_text, state_text, entry_text, heard_text, arrival_text};

use dsx_messages::{Kind, Modem};
use hex::encode_upper;
use operator_model::{Arrival, Heard};
use std::alloc::{AllocError, Global};
use tlv24::Bytes;
use transactions::{KeptEntry, ResponseState};

/// Adds bytes in hexadecimal, a dash for none.
fn put_bytes(alloc: Global, text: &mut String, bytes: &Bytes) -> Result<(), AllocError>
    ensures { OnOk result (string_bytes text.new ≡ string_bytes text.old ++ bytes_text bytes.now) }
{
    if bytes.as_slice().is_empty() {
        return text.push_str("-");
    }
    let digits = encode_upper(alloc, bytes.as_slice())?;
    text.push_str(digits.as_str())
}

/// Returns the word of a kind of transaction.
fn kind_text(kind: Kind) -> &'static str
    ensures { result.now ≡ kind_text kind }
{
    match kind {
        Kind::Dsa => "dsa",
        Kind::Dsc => "dsc",
        Kind::Dsd => "dsd",
    }
}

/// Returns the word of the state of a response.
fn state_text(standing: ResponseState) -> &'static str
    ensures { result.now ≡ state_text standing }
{
    match standing {
        ResponseState::Waiting => "waiting",
        ResponseState::Held => "held",
    }
}

/// Adds the line of a cached response.
#[tactic(auto, unfolding(crate::specs::Text::entry_text))]
fn put_entry(alloc: Global, text: &mut String, entry: &KeptEntry) -> Result<(), AllocError>
    ensures { OnOk result (string_bytes text.new ≡ string_bytes text.old ++ entry_text entry.now) }
{
    let (tid, sfid) = (entry.tid, entry.sfid);
    let (ticks, resends) = (entry.ticks_left, entry.resends_left);
    let kind = kind_text(entry.kind);
    let standing = state_text(entry.standing);
    let address_field = encode_upper(alloc, entry.modem.0.as_slice())?;
    write!(
        text,
        "response {address_field} {tid} {kind} {sfid} {standing} {ticks} {resends} "
    )?;
    put_bytes(alloc, text, &entry.reply)?;
    text.push_str("\n")
}

/// Adds the lines of cached responses, in order.
pub(crate) fn put_entries(
    alloc: Global,
    text: &mut String,
    entries: &[KeptEntry],
) -> Result<(), AllocError>
    ensures { OnOk result (string_bytes text.new ≡ string_bytes text.old ++ flat_map entry_text entries.now) }
{
    for entry in entries {
        put_entry(alloc, text, entry)?;
    }
    Ok(())
}

/// Adds the line of what was received of a modem.
fn put_heard(
    alloc: Global,
    text: &mut String,
    modem: Modem,
    heard: &Heard,
) -> Result<(), AllocError>
    ensures { OnOk result (string_bytes text.new ≡ string_bytes text.old ++ heard_text modem heard.now) }
{
    let address_field = encode_upper(alloc, modem.0.as_slice())?;
    match heard {
        Heard::Message(bytes) => {
            write!(text, "message {address_field} ")?;
            put_bytes(alloc, text, bytes)?;
            text.push_str("\n")
        }
        Heard::Request { sid, minislots } => write!(
            text,
            "request {address_field} {sid} {minislots}\n"
        ),
    }
}

/// Adds the line of an arrival.
#[tactic(auto, unfolding(crate::specs::Text::arrival_text))]
fn put_arrival(alloc: Global, text: &mut String, arrival: &Arrival) -> Result<(), AllocError>
    ensures { OnOk result (string_bytes text.new ≡ string_bytes text.old ++ arrival_text arrival.now) }
{
    put_heard(alloc, text, arrival.modem, &arrival.heard)
}

/// Adds the lines of arrivals, in order.
pub(crate) fn put_arrivals(
    alloc: Global,
    text: &mut String,
    arrivals: &[Arrival],
) -> Result<(), AllocError>
    ensures { OnOk result (string_bytes text.new ≡ string_bytes text.old ++ flat_map arrival_text arrivals.now) }
{
    for arrival in arrivals {
        put_arrival(alloc, text, arrival)?;
    }
    Ok(())
}
