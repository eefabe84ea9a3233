//! Whether a live core rests before a frame.

ghost use Rattle.std.specs.Prelude.{◌≡◌, ℕ, [], Ok, None, IfOk, IfErr, IfSome};
ghost use Rattle.plant_core.specs.live.DeskView.{slot_book, slot_waiting};
ghost use Rattle.plant_core.specs.live.LiveView.{live_view};
ghost use Rattle.plant_core.specs.live.Resting.{Rests, IsRestless, IsRestFault};

use crate::live::desk::LiveSlot;
use crate::live::held::LiveCore;
use crate::live::rest_fault::RestFault;
use plant::Op;

impl LiveSlot {
    /// Returns why the operator does not rest before this frame, or nothing where it does.
    fn rest_fault(&self, op: Op, frame: u32) -> Option<RestFault>
        ensures frame { result ≡ None → (slot_book self.now).state.frame ≡ frame }
        ensures waiting { result ≡ None → slot_waiting self.now ≡ [] }
        ensures fault { IfSome result (IsRestless frame op (slot_book self.now) (slot_waiting self.now)) }
    {
        if !self.waiting.is_empty() {
            return Some(RestFault::FrameWaits { op });
        }
        if self.live.frame() != frame {
            return Some(RestFault::NotAtFrame { op });
        }
        None
    }
}

impl LiveCore {
    /// Returns the frame before which the core rests: each operator is before it, and no frame waits to be collected.
    ///
    /// Fails with the first operator of which a frame waits, or that is before another frame than the first operator
    /// (implementation-specific).
    pub fn resting_frame(&self) -> Result<u32, RestFault>
        ensures ok { IfOk result (λ frame. Rests (live_view self.now) frame) }
        // It names the least operator of which a frame waits, or that is before another frame.
        ensures fault { IfErr result (IsRestFault (live_view self.now)) }
        ensures only { (frame : ℕ) → Rests (live_view self.now) frame → result ≡ Ok frame }
    {
        // For the proof: there is an operator.
        self.always_one_each();
        let frame = self.desks[0].live.frame();
        for op in 0..self.desks.len() {
            if let Some(fault) = self.desks[op].rest_fault(op, frame) {
                return Err(fault);
            }
        }
        Ok(frame)
    }
}
