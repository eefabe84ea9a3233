//! Opening a channel, and its steps.

ghost use Rattle.std.specs.Prelude.{◌≡◌, map, IfOk, OnOk, OnErr};
ghost use Rattle.lists.specs.Results.{Gives};
ghost use Rattle.operator_model.specs.declared.heard.Heard.TheVariants as heards;
ghost use Rattle.run_model.specs.declared.step.Step.TheVariants as steps;
ghost use Rattle.slice_table.specs.Tree.{plant_cause};
ghost use Rattle.plant_core.specs.live.Faults.{step_fault, IsReported};
ghost use Rattle.channel_c.specs.Answers.{StepEnds, ArrivalEnds, OrNoMemory, row_as};
ghost use Rattle.channel_c.specs.PlantText.{plant_said};
ghost use Rattle.channel_c.specs.Waiting.{view_of, IsOpenedFrom, IsSame, GoesOn};

use crate::channel::OpenChannel;
use crate::codes::{DONE, NO_MEMORY, RECEIVED, code_of};
use crate::slices::{SliceBudget, rows_of};
use dsx_messages::Modem;
use operator_model::Heard;
use plant::Plant;
use plant_core::{CoreFault, LiveCore};
use run_model::{SliceRows, Step};
use slice_table::{PlantFault, read_plant};
use std::alloc::Global;
use std::str;
use tlv24::Bytes;

/// Returns the plant that the bytes of a plant file say, or their first fault. Bytes that are not
/// UTF-8 are not TOML.
#[tactic(auto, using(crate::proofs::StepLemmas::text_gives, crate::proofs::StepLemmas::no_text))]
pub fn plant_of_bytes(alloc: Global, text: &[u8]) -> Result<Plant, PlantFault>
    ensures { Gives plant_cause (λ plant. plant) result (plant_said text.now) }
{
    match str::from_utf8(text) {
        Ok(text) => read_plant(alloc, text),
        Err(_error) => Err(PlantFault::NotToml),
    }
}

#[tactic(auto, using(crate::proofs::StepLemmas::opened_from, crate::proofs::StepLemmas::opened_said))]
impl OpenChannel {
    /// Opens the channel of a plant file, with nothing done. Fails with the first fault of the file,
    /// or if memory runs out.
    pub fn open(alloc: Global, text: &[u8]) -> Result<OpenChannel, PlantFault>
        ensures opened { IfOk result (IsOpenedFrom text.now) }
        ensures fault { Gives plant_cause (λ channel. (view_of channel).plant) result (plant_said text.now) }
    {
        let plant = plant_of_bytes(alloc, text)?;
        let Ok(text) = Bytes::from_slice(alloc, text) else {
            return Err(PlantFault::NoMemory);
        };
        match LiveCore::open(alloc, plant) {
            Ok(core) => Ok(OpenChannel {
                core,
                text,
                outs: Vec::new(alloc),
                fetched: 0,
            }),
            Err(_) => Err(PlantFault::NoMemory),
        }
    }

    /// Performs a step. Its outputs wait after those that wait already. If none waits, the memory of
    /// those that were fetched is used again. A refused step changes nothing.
    #[tactic(auto, using(crate::proofs::StepLemmas::goes_over, crate::proofs::StepLemmas::goes_after, crate::proofs::StepLemmas::same_over, crate::proofs::StepLemmas::same_after))]
    pub fn step(&mut self, alloc: Global, step: Step) -> Result<(), CoreFault>
        ensures done { OnOk result (GoesOn step self.old self.new) }
        ensures same { OnErr result (IsSame self.old self.new) }
        ensures fault { IsReported result (step_fault (view_of self.old) step) }
    {
        // For the proof: that the plant is valid.
        self.core.always();
        if self.fetched == self.outs.len() {
            let ended = self.core.step_over(alloc, step, &mut self.outs);
            self.fetched = 0;
            return ended;
        }
        self.core.step_into(alloc, step, &mut self.outs)
    }

    /// Performs a step as `step` does, and returns its number.
    #[tactic(auto, using(crate::proofs::EndLemmas::step_done, crate::proofs::EndLemmas::step_refused))]
    pub fn perform(&mut self, alloc: Global, step: Step) -> u32
        ensures { StepEnds result step self.old self.new }
    {
        match self.step(alloc, step) {
            Ok(()) => DONE,
            Err(fault) => code_of(fault),
        }
    }

    /// Puts what a modem sent into the inbox of its operator, and lets the operator handle the first
    /// of its inbox. Returns the number of the first step's fault, if it is refused.
    #[tactic(auto, using(crate::proofs::EndLemmas::arrival_done, crate::proofs::EndLemmas::arrival_kept, crate::proofs::EndLemmas::arrival_refused, crate::proofs::EndLemmas::arrival_unknown))]
    pub fn receive(&mut self, alloc: Global, modem: Modem, heard: Heard) -> u32
        ensures { ArrivalEnds result modem heard self.old self.new }
    {
        let Some(op) = self.core.plant().operator_of(modem) else {
            return code_of(CoreFault::UnknownModem { modem });
        };
        match self.step(alloc, Step::Arrive { modem, heard }) {
            Ok(()) => {}
            Err(fault) => return code_of(fault),
        }
        match self.step(alloc, Step::Work { op }) {
            Ok(()) => DONE,
            Err(_fault) => RECEIVED,
        }
    }

    /// Puts a message of a modem into the inbox of its operator, and lets the operator handle the
    /// first of its inbox. A message of at most 30 bytes takes no memory of its own.
    #[tactic(auto, using(crate::proofs::EndLemmas::or_this, crate::proofs::EndLemmas::or_memory))]
    pub fn receive_message(&mut self, alloc: Global, modem: Modem, message: &[u8]) -> u32
        ensures { OrNoMemory result (ArrivalEnds result modem (heards.Message message.now)) self.old self.new }
    {
        match Bytes::from_slice(alloc, message) {
            Ok(bytes) => self.receive(alloc, modem, Heard::Message(bytes)),
            Err(_) => NO_MEMORY,
        }
    }

    /// Gives each operator another slice and budget from a later frame on.
    #[tactic(auto, using(crate::proofs::EndLemmas::or_this, crate::proofs::EndLemmas::or_memory))]
    pub fn reslice(&mut self, alloc: Global, from: u32, rows: &[SliceBudget]) -> u32
        ensures { OrNoMemory result (StepEnds result (steps.Reslice from (map row_as rows.now))) self.old self.new }
    {
        match rows_of(alloc, rows) {
            Ok(made) => {
                let rows = SliceRows::from_vec(made);
                self.perform(alloc, Step::Reslice { from, rows })
            }
            Err(_) => NO_MEMORY,
        }
    }
}
