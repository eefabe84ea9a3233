//! Saving a channel, and changing its plant.

ghost use Rattle.std.specs.Prelude.{◌≡◌, IfErr, IfOk};
ghost use Rattle.channel_c.specs.Saved.{ChangeEnds, IsSaveRefusal, IsSavedText, SaveEnds};
ghost use Rattle.channel_c.specs.Waiting.{view_of};

use crate::channel::OpenChannel;
use crate::codes::{DONE, NO_MEMORY, SHORT, change_code, plant_code, save_code};
use crate::performing::plant_of_bytes;
use crate::putting::put_bytes;
use plant_restart::{SaveFault, change, save};
use snapshot_format::write_snapshot;
use std::alloc::Global;
use tlv24::Bytes;

impl OpenChannel {
    /// Returns the text of a snapshot of the channel. It fails if the channel does not rest before a
    /// frame, or if memory runs out.
    #[tactic(auto, using(crate::proofs::SavedLemmas::save_refusal))]
    fn snapshot_text(&self, alloc: Global) -> Result<Vec<u8>, SaveFault>
        ensures ok { IfOk result (λ text. IsSavedText self.now text.items) }
        ensures fault { IfErr result (IsSaveRefusal (view_of self.now)) }
    {
        // A channel that does not rest is reported as such, also without memory.
        if let Err(why) = self.core.resting_frame() {
            return Err(SaveFault::Unfinished { why });
        }
        let Ok(file) = self.text.copy(alloc) else {
            return Err(SaveFault::NoMemory);
        };
        let saved = save(alloc, &self.core, file)?;
        let mut text = Vec::new(alloc);
        match write_snapshot(alloc, &mut text, &saved) {
            Ok(()) => Ok(text),
            Err(_full) => Err(SaveFault::NoMemory),
        }
    }

    /// Writes the text of a snapshot of the channel at the beginning of a buffer, and its length. If
    /// it does not fit, its length alone.
    #[tactic(auto, using(crate::proofs::SavedLemmas::saved_done, crate::proofs::SavedLemmas::saved_short, crate::proofs::SavedLemmas::saved_refused))]
    pub fn save(&self, alloc: Global, bytes: &mut [u8], length: &mut usize) -> u32
        ensures { SaveEnds result length.old length.new bytes.old bytes.new self.now }
    {
        match self.snapshot_text(alloc) {
            Ok(text) => {
                *length = text.len();
                if put_bytes(text.as_slice(), bytes) {
                    DONE
                } else {
                    SHORT
                }
            }
            Err(fault) => save_code(fault),
        }
    }

    /// Puts another plant file in force between two frames: each operator goes on in its state, by
    /// its name. The outputs that wait go on waiting.
    #[tactic(auto, using(crate::proofs::SavedLemmas::change_unread, crate::proofs::SavedLemmas::change_full, crate::proofs::SavedLemmas::change_done, crate::proofs::SavedLemmas::change_refused))]
    pub fn change(&mut self, alloc: Global, text: &[u8]) -> u32
        ensures { ChangeEnds result text.now self.old self.new }
    {
        let plant = match plant_of_bytes(alloc, text) {
            Ok(plant) => plant,
            Err(fault) => return plant_code(fault),
        };
        let Ok(file) = Bytes::from_slice(alloc, text) else {
            return NO_MEMORY;
        };
        match change(alloc, &self.core, plant) {
            Ok(core) => {
                self.core = core;
                self.text = file;
                DONE
            }
            Err(fault) => change_code(fault),
        }
    }
}
