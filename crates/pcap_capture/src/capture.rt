//! The capture of a run.

ghost use Rattle.std.specs.Prelude.{◌≡◌, ◌≢◌, ◌++◌, [], List, All, IfOk, OnOk, OnErr};
ghost use Rattle.std.specs.List.{flat_map};
ghost use Rattle.plant.specs.declared.plant.PlantFields.{PlantFields};
ghost use Rattle.run_model.specs.declared.step.Step.{Step};
ghost use Rattle.run_model.specs.declared.step.Out.{Out};
ghost use Rattle.pcap_capture.specs.File.{file_of};
ghost use Rattle.pcap_capture.specs.Capture.{opened_capture, with_packets, sent_in, told_in, CapturesRun, IsCaptureOf};
ghost use Rattle.pcap_capture.specs.Laws.{IsAddressed, AreRead};

use crate::clock::Clock;
use crate::packet::{Packet, always_six};
use crate::recording::file_of;
use operator_model::{Heard, Output};
use plant::Consts;
use run_model::{Out, Step};
use std::alloc::{AllocError, Global};
use std::marker::Model;

/// A capture so far. Contracts see its clock and its packets. The type keeps that each modem's address has six bytes.
#[derive(Debug, Drop)]
pub struct Capture {
    clock: Clock,
    packets: Vec<Packet>,
}

impl Model for Capture {
    ghost use Rattle.std.specs.Prelude.{All};
    ghost use Rattle.pcap_capture.specs.Capture.{CaptureView};
    ghost use Rattle.pcap_capture.specs.Laws.{IsAddressed};

    ghost Value = { CaptureView };

    ghost view = { λ c. record { clock = c.clock; packets = c.packets.items } };

    ghost invariant = { λ c. All IsAddressed c.packets.items };
}

/// Adds the packet of a reply or of a MAP.
#[tactic(auto, using(crate::proofs::AddressLemmas::none_addressed, crate::proofs::AddressLemmas::one_addressed))]
fn put_told(alloc: Global, packets: &mut Vec<Packet>, out: &Out) -> Result<(), AllocError>
    ensures ok { OnOk result (packets.new.items ≡ packets.old.items ++ told_in out.now) }
    ensures addressed { OnOk result (All IsAddressed (told_in out.now)) }
{
    match out {
        Out::Of {
            op: _,
            output: Output::Reply { modem, bytes },
        } => {
            // For the proof: an address has six bytes.
            always_six(*modem);
            let bytes = bytes.copy(alloc)?;
            packets.push(Packet::Reply {
                modem: *modem,
                bytes,
            })?;
            Ok(())
        }
        Out::Of { op: _, output: _ } => Ok(()),
        Out::Map(made) => {
            let bytes = made.bytes.copy(alloc)?;
            packets.push(Packet::Map {
                frame: made.frame,
                bytes,
            })?;
            Ok(())
        }
    }
}

/// Returns the packets of replies and MAPs, in order.
#[tactic(auto, using(crate::proofs::AddressLemmas::none_addressed, crate::proofs::AddressLemmas::more_addressed))]
fn told_in(alloc: Global, outs: &[Out]) -> Result<Vec<Packet>, AllocError>
    ensures ok { IfOk result (λ packets. packets.items ≡ flat_map told_in outs.now) }
    ensures addressed { OnOk result (All IsAddressed (flat_map told_in outs.now)) }
{
    let mut packets = Vec::with_capacity(alloc, outs.len())?;
    for out in outs {
        put_told(alloc, &mut packets, out)?;
    }
    Ok(packets)
}

impl Capture {
    /// Creates a capture of a plant without a packet.
    #[tactic(auto, using(crate::proofs::AddressLemmas::none_addressed))]
    pub fn open(alloc: Global, consts: &Consts) -> Capture
        ensures { result ≡ opened_capture consts.now }
    {
        let fields = consts.get_fields();
        Capture {
            clock: Clock {
                first_frame: fields.channel.first_frame,
                frame_us: fields.units.get_frame_us(),
            },
            packets: Vec::new(alloc),
        }
    }

    /// Adds what a modem sends, where the step is that. Requests for minislots are not management
    /// messages and leave nothing. Only a message takes memory.
    #[tactic(auto, using(crate::proofs::AddressLemmas::none_addressed, crate::proofs::AddressLemmas::one_addressed, crate::proofs::AddressLemmas::more_addressed))]
    pub fn add_sent_message(&mut self, alloc: Global, step: &Step) -> Result<(), AllocError>
        // The packet of the modem's message is added.
        ensures ok { OnOk result (self.new ≡ with_packets self.old (sent_in step.now)) }
        ensures addressed { OnOk result (All IsAddressed (sent_in step.now)) }
        // Out of memory it adds nothing.
        ensures err { OnErr result (self.new ≡ self.old) }
        // Memory runs out only for a step that is a message.
        ensures memory { OnErr result (sent_in step.now ≢ []) }
    {
        if let Step::Arrive {
            modem,
            heard: Heard::Message(bytes),
        } = step
        {
            // For the proof: an address has six bytes.
            always_six(*modem);
            let bytes = bytes.copy(alloc)?;
            self.packets.push(Packet::Sent {
                modem: *modem,
                bytes,
            })?;
        }
        Ok(())
    }

    /// Adds the replies and MAPs among outputs, in order.
    #[tactic(auto, using(crate::proofs::AddressLemmas::more_addressed))]
    pub fn add_outputs(&mut self, alloc: Global, outs: &[Out]) -> Result<(), AllocError>
        // The packets of replies and MAPs are added, in order.
        ensures ok { OnOk result (self.new ≡ with_packets self.old (flat_map told_in outs.now)) }
        ensures addressed { OnOk result (All IsAddressed (flat_map told_in outs.now)) }
        ensures err { OnErr result (self.new ≡ self.old) }
    {
        let mut packets = told_in(alloc, outs)?;
        self.packets.append(&mut packets)?;
        Ok(())
    }

    /// Returns the capture as a file. A message of no byte has no frame and no record, nor does one of more than 65,511 bytes of
    /// payload. A reader finds each frame in it, and in the frame the message.
    pub fn to_bytes(&self, alloc: Global) -> Result<Vec<u8>, AllocError>
        // The file of the packets, byte for byte.
        ensures value { IfOk result (λ bytes. bytes.items ≡ file_of self.now.clock self.now.packets) }
        // If the packets are those of a run, this is the capture of that run.
        ensures of_run { IfOk result (λ bytes. (plant : PlantFields) (steps : List Step) (outs : List Out)
            → CapturesRun plant steps outs self.now → IsCaptureOf plant steps outs bytes.items) }
        // Whoever reads it from record to record finds the frames of the packets, in order, and nothing else.
        ensures read { IfOk result (λ bytes. AreRead self.now.packets bytes.items) }
    {
        file_of(alloc, self.clock, self.packets.as_slice())
    }
}
