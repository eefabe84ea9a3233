//! The lines of outputs and of an operator's own steps, written where they are made: no memory is
//! taken for them.

ghost use Rattle.std.specs.Prelude.{◌≤◌, ◌++◌, ◌∷◌, [], length, codes, slice_get, OnOk};
ghost use Rattle.std.specs.Io.KnownBytes.{Appends};
ghost use Rattle.std.specs.List.{flat_map};
ghost use Rattle.hex.specs.Hex.{encode_upper};
ghost use Rattle.operator_model.specs.declared.output.Output.TheVariants.{Silent, Frame};
ghost use Rattle.operator_model.specs.Replay.{actions_of};
ghost use Rattle.line_service.specs.script.Text.{address, after_space, span_text, pending_text, elements_text, operator_name, sender_text, message_text, output_line, map_line, out_line, outs_text, heard_line, action_line, actions_text};

use crate::script::causes::cause_name;
use crate::script::digits::{
    PENDINGS, PENDINGS_ROOM, SPANS, SPANS_ROOM, address_digits, line_head, pendings_digits,
    spans_digits,
};
use crate::script::hexadecimal::write_hex_line;
use dsx_messages::Modem;
use map_assembly::MapBytes;
use operator_model::{Action, Cause, Entry, Heard, Output, SliceRow};
use plant::{Op, Plant};
use run_model::Out;
use slice_scheduler::{Elements, Span};
use std::io;
use std::io::Write;

/// Writes the address of a modem.
fn write_address<W: Write>(writer: &mut W, modem: Modem) -> io::Result<()>
    ensures { OnOk result (Appends (W.contents writer.old) (W.contents writer.new) (address modem)) }
{
    writer.write_all(&address_digits(modem))
}

/// Writes few spans, each after a space.
#[inline(always)]
fn write_few_spans<W: Write>(writer: &mut W, spans: &[Span]) -> io::Result<()>
    requires { length spans.now ≤ 32 }
    ensures { OnOk result (Appends (W.contents writer.old) (W.contents writer.new)
        (flat_map (λ span. after_space (span_text span)) spans.now)) }
{
    let mut room = [0u8; SPANS_ROOM];
    let place = spans_digits(&mut room, spans);
    writer.write_all(&room[place..])
}

/// Writes spans, each after a space.
fn write_spans<W: Write>(writer: &mut W, spans: &[Span]) -> io::Result<()>
    ensures { OnOk result (Appends (W.contents writer.old) (W.contents writer.new)
        (flat_map (λ span. after_space (span_text span)) spans.now)) }
{
    let mut place = 0;
    while spans.len() - place > SPANS {
        write_few_spans(writer, &spans[place..place + SPANS])?;
        place += SPANS;
    }
    write_few_spans(writer, &spans[place..])
}

/// Writes few grants pending, each after a space.
fn write_few_pending<W: Write>(writer: &mut W, pending: &[u16]) -> io::Result<()>
    requires { length pending.now ≤ 32 }
    ensures { OnOk result (Appends (W.contents writer.old) (W.contents writer.new)
        (flat_map (λ sid. after_space (pending_text sid)) pending.now)) }
{
    let mut room = [0u8; PENDINGS_ROOM];
    let place = pendings_digits(&mut room, pending);
    writer.write_all(&room[place..])
}

/// Writes the SIDs of grants pending, each after a space.
fn write_pending<W: Write>(writer: &mut W, pending: &[u16]) -> io::Result<()>
    ensures { OnOk result (Appends (W.contents writer.old) (W.contents writer.new)
        (flat_map (λ sid. after_space (pending_text sid)) pending.now)) }
{
    let mut place = 0;
    while pending.len() - place > PENDINGS {
        write_few_pending(writer, &pending[place..place + PENDINGS])?;
        place += PENDINGS;
    }
    write_few_pending(writer, &pending[place..])
}

/// Writes the elements of a frame, each after a space.
#[inline(always)]
fn write_elements<W: Write>(writer: &mut W, elements: &Elements) -> io::Result<()>
    ensures { OnOk result (Appends (W.contents writer.old) (W.contents writer.new) (elements_text elements.now)) }
{
    write_spans(writer, elements.get_spans())?;
    write_pending(writer, elements.get_pending())
}

/// Writes the name of an operator.
pub fn write_name<W: Write>(writer: &mut W, plant: &Plant, op: Op) -> io::Result<()>
    // Exactly the name is written.
    ensures { OnOk result (Appends (W.contents writer.old) (W.contents writer.new) (operator_name (slice_get plant.now.rows op))) }
{
    match plant.rows().get(op) {
        Some(row) => writer.write_all(row.get_fields().name.as_slice()),
        None => Ok(()),
    }
}

/// Writes the address of a modem; a dash for none.
fn write_sender<W: Write>(writer: &mut W, modem: Option<Modem>) -> io::Result<()>
    ensures { OnOk result (Appends (W.contents writer.old) (W.contents writer.new) (sender_text modem)) }
{
    match modem {
        Some(modem) => write_address(writer, modem),
        None => writer.write_all(b"-"),
    }
}

/// Writes the line of a cause for which nothing is answered.
fn write_silent<W: Write>(writer: &mut W, modem: Option<Modem>, cause: Cause) -> io::Result<()>
    ensures { OnOk result (Appends (W.contents writer.old) (W.contents writer.new) (output_line [] (Silent modem cause))) }
{
    writer.write_all(b"S ")?;
    write_sender(writer, modem)?;
    writer.write_all(b" ")?;
    writer.write_all(cause_name(cause).as_bytes())?;
    writer.write_all(b"\n")
}

/// Writes the line of a reply.
#[inline(always)]
fn write_reply<W: Write>(writer: &mut W, modem: Modem, bytes: &[u8]) -> io::Result<()>
    ensures { OnOk result (Appends (W.contents writer.old) (W.contents writer.new)
        (codes "R " ++ (address modem ++ (codes " " ++ (encode_upper bytes.now ++ 10 ∷ []))))) }
{
    writer.write_all(&line_head(b'R', modem))?;
    write_hex_line(writer, bytes)
}

/// Writes the line of a frame of an operator.
fn write_frame<W: Write>(
    writer: &mut W,
    plant: &Plant,
    op: Op,
    number: u32,
    elements: &Elements,
) -> io::Result<()>
    ensures { OnOk result (Appends (W.contents writer.old) (W.contents writer.new)
        (output_line (operator_name (slice_get plant.now.rows op)) (Frame number elements.now))) }
{
    writer.write_all(b"F ")?;
    write_name(writer, plant, op)?;
    write!(writer, " {number}")?;
    write_elements(writer, elements)?;
    writer.write_all(b"\n")
}

/// Writes the line of an operator's output.
#[inline(always)]
pub fn write_output<W: Write>(
    writer: &mut W,
    plant: &Plant,
    op: Op,
    output: &Output,
) -> io::Result<()>
    // Exactly the line of this output is written.
    ensures { OnOk result (Appends (W.contents writer.old) (W.contents writer.new)
        (output_line (operator_name (slice_get plant.now.rows op)) output.now)) }
{
    match output {
        Output::Reply { modem, bytes } => write_reply(writer, *modem, bytes.as_slice()),
        Output::Silent { modem, cause } => write_silent(writer, *modem, *cause),
        Output::Frame { number, elements } => write_frame(writer, plant, op, *number, elements),
    }
}

/// Writes the line of a MAP.
pub fn write_map<W: Write>(writer: &mut W, made: &MapBytes) -> io::Result<()>
    ensures { OnOk result (Appends (W.contents writer.old) (W.contents writer.new) (map_line made.now)) }
{
    let frame = made.frame;
    write!(writer, "MAP {frame} ")?;
    write_hex_line(writer, made.bytes.as_slice())
}

/// Writes the line of an output.
#[inline(always)]
fn write_out<W: Write>(writer: &mut W, plant: &Plant, out: &Out) -> io::Result<()>
    ensures { OnOk result (Appends (W.contents writer.old) (W.contents writer.new) (out_line plant.now out.now)) }
{
    match out {
        Out::Of { op, output } => write_output(writer, plant, *op, output),
        Out::Map(made) => write_map(writer, made),
    }
}

/// Writes the lines of outputs. Takes no memory of its own, so out of memory loses none of them.
pub fn write_outs<W: Write>(writer: &mut W, plant: &Plant, outs: &[Out]) -> io::Result<()>
    ensures { OnOk result (Appends (W.contents writer.old) (W.contents writer.new) (outs_text plant.now outs.now)) }
{
    for out in outs {
        write_out(writer, plant, out)?;
    }
    Ok(())
}

/// Writes the bytes of a message, a dash for none, and the end of their line.
fn write_message_bytes<W: Write>(writer: &mut W, bytes: &[u8]) -> io::Result<()>
    ensures { OnOk result (Appends (W.contents writer.old) (W.contents writer.new) (message_text bytes.now ++ 10 ∷ [])) }
{
    if bytes.is_empty() {
        writer.write_all(b"-\n")
    } else {
        write_hex_line(writer, bytes)
    }
}

/// Writes the line of a message of a modem.
fn write_message<W: Write>(writer: &mut W, modem: Modem, bytes: &[u8]) -> io::Result<()>
    ensures { OnOk result (Appends (W.contents writer.old) (W.contents writer.new)
        (codes "M " ++ (address modem ++ (codes " " ++ (message_text bytes.now ++ 10 ∷ []))))) }
{
    writer.write_all(&line_head(b'M', modem))?;
    write_message_bytes(writer, bytes)
}

/// Writes the line of what was received of a modem.
fn write_heard<W: Write>(writer: &mut W, modem: Modem, heard: &Heard) -> io::Result<()>
    ensures { OnOk result (Appends (W.contents writer.old) (W.contents writer.new) (heard_line modem heard.now)) }
{
    match heard {
        Heard::Message(bytes) => write_message(writer, modem, bytes.as_slice()),
        Heard::Request { sid, minislots } => write!(writer, "Q {modem} {sid} {minislots}\n"),
    }
}

/// Writes the line of an action.
fn write_action<W: Write>(writer: &mut W, action: &Action) -> io::Result<()>
    ensures { OnOk result (Appends (W.contents writer.old) (W.contents writer.new) (action_line action.now)) }
{
    match action {
        Action::Arrive { modem, heard } => write_heard(writer, *modem, heard),
        Action::Work => writer.write_all(b"W\n"),
        Action::Tick => writer.write_all(b"T\n"),
        Action::Reslice { from, row } => {
            let SliceRow {
                start,
                length,
                budget,
            } = *row;
            write!(writer, "Z {from} {start}/{length}/{budget}\n")
        }
    }
}

/// Writes the lines of the actions of a history.
pub fn write_actions<W: Write>(writer: &mut W, history: &[Entry]) -> io::Result<()>
    // Exactly the lines of these actions are written.
    ensures { OnOk result (Appends (W.contents writer.old) (W.contents writer.new) (actions_text (actions_of history.now))) }
{
    for entry in history {
        write_action(writer, &entry.action)?;
    }
    Ok(())
}
