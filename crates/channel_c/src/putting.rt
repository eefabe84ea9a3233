//! Writing an output into the caller's buffers.

ghost use Rattle.std.specs.Prelude.{◌≡◌, ◌≤◌, ◌↔◌, ◌+◌, ◌++◌, [], length, map, take, IsFalse, IsTrue};
ghost use Rattle.channel_c.specs.Output.{bytes_under, bytes_of, grants_under, grants_of, Fits};
ghost use Rattle.channel_c.specs.Grants.{granted_as, pending_as};

use crate::grants::{Grant, put_granted, put_pending};
use operator_model::Output;
use run_model::Out;
use slice_scheduler::Elements;

/// Writes bytes at the beginning of a buffer, and returns whether there is room for them. If not,
/// nothing is written.
pub fn put_bytes(bytes: &[u8], room: &mut [u8]) -> bool
    ensures fits { IsTrue result ↔ (length bytes.now ≤ length room.old) }
    ensures written { IsTrue result → take (length bytes.now) room.new ≡ bytes.now }
    ensures same { IsFalse result → room.new ≡ room.old }
{
    if bytes.len() > room.len() {
        return false;
    }
    room[..bytes.len()].copy_from_slice(bytes);
    true
}

/// Writes the grants of a frame at the beginning of a buffer, and returns whether there is room for
/// them. If not, nothing is written.
fn put_grants(elements: &Elements, room: &mut [Grant]) -> bool
    ensures fits { IsTrue result ↔ (length elements.now.spans + length elements.now.pending ≤ length room.old) }
    ensures written { IsTrue result → take (length elements.now.spans + length elements.now.pending) room.new
        ≡ map granted_as elements.now.spans ++ map pending_as elements.now.pending }
{
    let granted = elements.get_spans();
    let pending = elements.get_pending();
    if granted.len() > room.len() || pending.len() > room.len() - granted.len() {
        return false;
    }
    put_granted(granted, room);
    put_pending(pending, &mut room[granted.len()..]);
    true
}

/// Writes what an operator's output has of bytes and of grants, and returns whether there is room
/// for it.
fn put_under(output: &Output, bytes: &mut [u8], grants: &mut [Grant]) -> bool
    ensures bytes { IsTrue result → take (length (bytes_under output.now)) bytes.new ≡ bytes_under output.now }
    ensures grants { IsTrue result → take (length (grants_under output.now)) grants.new ≡ grants_under output.now }
    ensures fits { IsTrue result ↔ ((length (bytes_under output.now) ≤ length bytes.old)
        × (length (grants_under output.now) ≤ length grants.old)) }
{
    match output {
        Output::Reply {
            modem: _,
            bytes: reply,
        } => put_bytes(reply.as_slice(), bytes),
        Output::Silent { modem: _, cause: _ } => true,
        Output::Frame {
            number: _,
            elements,
        } => put_grants(elements, grants),
    }
}

/// Writes what an output has of bytes and of grants, and returns whether there is room for it.
pub fn put_output(out: &Out, bytes: &mut [u8], grants: &mut [Grant]) -> bool
    ensures bytes { IsTrue result → take (length (bytes_of out.now)) bytes.new ≡ bytes_of out.now }
    ensures grants { IsTrue result → take (length (grants_of out.now)) grants.new ≡ grants_of out.now }
    ensures fits { IsTrue result ↔ Fits out.now bytes.old grants.old }
{
    match out {
        Out::Of { op: _, output } => put_under(output, bytes, grants),
        Out::Map(made) => put_bytes(made.bytes.as_slice(), bytes),
    }
}
