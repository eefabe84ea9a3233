//! A capture: a call that is refused has added nothing, and made once more, the file is what it is otherwise.

use crate::want_of_memory::again::again;
use crate::want_of_memory::tables::plant;
use dsx_messages::Modem;
use hex::encode_upper;
use map_assembly::MapBytes;
use operator_model::{Heard, Output};
use pcap_capture::Capture;
use run_model::{Out, Step};
use std::alloc::{AllocError, Global};
use std::process::Abort;
use tlv24::Bytes;

const ONE: Modem = Modem([2, 0, 0, 0, 0, 1]);

/// As another implementation of the formats writes it: a DSA-REQ of a modem, the DSA-RSP to it, its DSA-ACK, the MAP of frame 0, and
/// a DSD-REQ before the MAP of frame 1.
const FIRST_FLOW: &str = concat!(
    "D4C3B2A1020004000000000000000000050001008F000000",
    "00000000000000002C0000002C000000",
    "C200002645BA0200000000000200000000010014000003020F000001180A010200010601060F01024E325519",
    "00000000000000003100000031000000",
    "C200002BA0610200000000010200000000000019000003021000000100180E01020001020400000101030201016B2470",
    "24",
    "00000000000000002100000021000000",
    "C200001B235002000000000002000000000100090000030211000001002A340114",
    "00000000000000004600000046000000",
    "C200004075BC01E02F000001020000000000002E00000301030001010600000000000000000000000000FFFC40000405",
    "80080001800D080540280001802B0001C048D887329F",
    "00000000D00700002600000026000000",
    "C200002073DF020000000000020000000001000E000003021500000200000000010106A668D0",
);

/// The DSA-REQ.
const ADDITION: [u8; 15] = [15, 0, 1, 24, 10, 1, 2, 0, 1, 6, 1, 6, 15, 1, 2];

/// The DSA-RSP.
const ANSWER: [u8; 20] = [
    16, 0, 1, 0, 24, 14, 1, 2, 0, 1, 2, 4, 0, 0, 1, 1, 3, 2, 1, 1,
];

/// The DSA-ACK.
const ACKNOWLEDGEMENT: [u8; 4] = [17, 0, 1, 0];

/// The MAP of frame 0 in which an operator has a grant.
const MAP: [u8; 40] = [
    1, 1, 6, 0, 0, 0, 0, 0, 0, 0, 0, 0, 0, 0, 0, 0, 0xFF, 0xFC, 0x40, 0x00, 4, 5, 0x80, 0x08, 0, 1,
    0x80, 0x0D, 8, 5, 0x40, 0x28, 0, 1, 0x80, 0x2B, 0, 1, 0xC0, 0x48,
];

/// The DSD-REQ.
const DELETION: [u8; 9] = [21, 0, 2, 0, 0, 0, 0, 1, 1];

/// Returns a message of the modem arrives.
fn message(alloc: Global, bytes: &[u8]) -> Result<Step, AllocError> {
    Ok(Step::Arrive {
        modem: ONE,
        heard: Heard::Message(Bytes::from_slice(alloc, bytes)?),
    })
}

/// Returns the reply of the first operator to the modem.
fn reply(alloc: Global) -> Result<Out, AllocError> {
    Ok(Out::Of {
        op: 0,
        output: Output::Reply {
            modem: ONE,
            bytes: Bytes::from_slice(alloc, &ANSWER)?,
        },
    })
}

/// Returns the MAP of the first frame.
fn map(alloc: Global) -> Result<Out, AllocError> {
    Ok(Out::Map(MapBytes {
        frame: 0,
        bytes: Bytes::from_slice(alloc, &MAP)?,
    }))
}

/// Returns a capture of the plant of two operators.
fn capture_of(alloc: Global) -> Result<Capture, AllocError> {
    let plant = plant(alloc)?;
    Ok(Capture::open(alloc, plant.consts()))
}

/// Captures the message of a step.
fn capture_message(alloc: Global, capture: &mut Capture, step: &Step) -> Result<(), AllocError> {
    again!(capture.add_sent_message(alloc, step))
}

/// Captures what a step outputs.
fn capture_outputs(alloc: Global, capture: &mut Capture, outs: &[Out]) -> Result<(), AllocError> {
    again!(capture.add_outputs(alloc, outs))
}

/// Captures a message of the modem.
fn send(alloc: Global, capture: &mut Capture, bytes: &[u8]) -> Result<(), AllocError> {
    let step = message(alloc, bytes)?;
    capture_message(alloc, capture, &step)
}

/// Captures one output of a step.
fn tell(alloc: Global, capture: &mut Capture, out: Out) -> Result<(), AllocError> {
    capture_outputs(alloc, capture, &[out])
}

/// Captures a flow's addition, its MAP and its deletion.
fn first_flow(alloc: Global, capture: &mut Capture) -> Result<(), AllocError> {
    send(alloc, capture, &ADDITION)?;
    tell(alloc, capture, reply(alloc)?)?;
    send(alloc, capture, &ACKNOWLEDGEMENT)?;
    tell(alloc, capture, map(alloc)?)?;
    send(alloc, capture, &DELETION)
}

/// Returns the bytes of the file.
fn file(alloc: Global, capture: &Capture) -> Result<Vec<u8>, AllocError> {
    again!(capture.to_bytes(alloc))
}

/// Returns the digits of the file.
fn digits(alloc: Global, capture: &Capture) -> Result<String, AllocError> {
    let file = file(alloc, capture)?;
    encode_upper(alloc, file.as_slice())
}

/// Returns whether the file of a capture is the one that is wanted, after these.
fn is_first_flow(alloc: Global, capture: &mut Capture) -> Result<bool, AllocError> {
    first_flow(alloc, capture)?;
    let digits = digits(alloc, capture)?;
    Ok(digits.as_str() == FIRST_FLOW)
}

/// Returns whether the file of the first flow is the one that is wanted.
fn first_flow_is_captured(alloc: Global) -> Result<bool, AllocError> {
    let mut capture = capture_of(alloc)?;
    is_first_flow(alloc, &mut capture)
}

#[test]
fn a_flow_is_captured_again(rt: HostRuntime) -> Result<(), AllocError> {
    assert!(rt; first_flow_is_captured(rt.alloc())?);
    Ok(())
}
