//! Copies of what a book outputs. No command copies a whole output; what it copies, its
//! runs show.

use crate::want_of_memory::again::again;
use dsx_messages::Modem;
use operator_model::Output;
use slice_scheduler::{Elements, ElementsFields, Iuc, Sids, Slice, Span, Spans};
use std::alloc::{AllocError, Global};
use std::process::Abort;
use tlv24::Bytes;

/// Returns whether an output is copied at all. That the copy is the output is the clause of `copy`.
fn is_copied(alloc: Global, output: Output) -> bool {
    again!(output.copy(alloc)).is_ok()
}

/// Returns a grant, what is left of the slice, and a SID that waits.
fn elements(alloc: Global) -> Result<Elements, AllocError> {
    let grant = Span {
        sid: 257,
        iuc: Iuc::Long,
        start: 8,
        len: 32,
    };
    Ok(Elements::new(ElementsFields {
        slice: Slice::new(8, 32),
        spans: Spans::from_vec(Vec::from_slice(alloc, &[grant])?),
        pending: Sids::from_vec(Vec::from_slice(alloc, &[257, 258])?),
    }))
}

/// Returns an output that is a frame.
fn frame(alloc: Global) -> Result<Output, AllocError> {
    Ok(Output::Frame {
        number: 7,
        elements: elements(alloc)?,
    })
}

/// Returns an output that is a reply.
fn reply(alloc: Global) -> Result<Output, AllocError> {
    Ok(Output::Reply {
        modem: Modem([2, 0, 0, 0, 0, 1]),
        bytes: Bytes::from_slice(alloc, &[16, 0, 1, 3])?,
    })
}

#[test]
fn outputs_are_copied(rt: HostRuntime) -> Result<(), AllocError> {
    assert!(rt; is_copied(rt.alloc(), frame(rt.alloc())?));
    assert!(rt; is_copied(rt.alloc(), reply(rt.alloc())?));
    Ok(())
}
