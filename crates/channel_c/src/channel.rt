//! A channel that is open, as C drives it.

ghost use Rattle.std.specs.Prelude.{◌≤◌, length};

use plant_core::LiveCore;
use run_model::Out;
use tlv24::Bytes;

/// A channel that is open: its core, the text of the plant file in force, and the outputs of its
/// steps, of which the first `fetched` were fetched. The type keeps that no more were fetched than
/// there are.
#[derive(Drop)]
pub struct OpenChannel {
    pub(crate) core: LiveCore,
    pub(crate) text: Bytes,
    pub(crate) outs: Vec<Out>,
    pub(crate) fetched: usize,
    ghost within: { fetched ≤ length outs.items },
}
