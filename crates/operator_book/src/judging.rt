//! Why an action is refused, and how many outputs it has at most.

ghost use Rattle.std.specs.Prelude.{◌≡◌, ◌≤◌, ◌↔◌, true, length, Err, None, Some, OnOk};
ghost use Rattle.dsx_messages.specs.declared.modem.Modem.{Modem};
ghost use Rattle.operator_model.specs.declared.action.Unfit.{Unfit};
ghost use Rattle.operator_model.specs.Machine.{stranger_of, is_spent, unfit_of, own_step, IsAllowed};
ghost use Rattle.operator_book.specs.MostOutputs.{most_outputs_of};

use crate::book::BookFault;
use crate::machine::MachineState;
use operator_model::Action;
use plant::is_listed;

impl MachineState {
    /// Returns whether this is a tick past the last frame.
    #[inline(always)]
    pub(crate) fn is_spent(&self, action: &Action) -> bool
        ensures { result ≡ is_spent self.now.state action.now }
    {
        match action {
            Action::Tick => self.frame == u32::MAX,
            Action::Arrive { modem: _, heard: _ }
            | Action::Work
            | Action::Reslice { from: _, row: _ } => false,
        }
    }

    /// Returns why an action is refused: a stranger first, then a tick past the last frame, then a
    /// slice that does not fit.
    #[inline(always)]
    pub(crate) fn judge(&self, action: &Action) -> Result<(), BookFault>
        ensures not_mine { (modem : Modem) → (result ≡ Err (BookFault.NotMine modem))
            ↔ (stranger_of self.now.row action.now ≡ Some modem) }
        ensures spent { (result ≡ Err BookFault.FramesSpent) ↔ (is_spent self.now.state action.now ≡ true) }
        ensures unfit { (u : Unfit) → (result ≡ Err (BookFault.Unfit u))
            ↔ (unfit_of self.now action.now ≡ Some u) }
        ensures allowed { OnOk result (IsAllowed self.now action.now) }
        ensures memory { result ≡ Err BookFault.NoMemory → ⊥ }
    {
        match action {
            Action::Arrive { modem, heard: _ } => {
                if is_listed(*modem, self.row.get_fields().modems.as_slice()) {
                    Ok(())
                } else {
                    Err(BookFault::NotMine { modem: *modem })
                }
            }
            Action::Work => Ok(()),
            Action::Tick => {
                if self.frame == u32::MAX {
                    Err(BookFault::FramesSpent)
                } else {
                    Ok(())
                }
            }
            Action::Reslice { from, row } => match self.unfit_from(*from, *row) {
                Some(unfit) => Err(BookFault::Unfit(unfit)),
                None => Ok(()),
            },
        }
    }

    /// Returns how many outputs an action has at most, if it is done next: a tick what it
    /// retransmits and its frame, any other action one.
    #[tactic(auto, using(crate::proofs::Few::few_outputs))]
    #[inline(always)]
    pub(crate) fn most_outputs(&self, action: &Action) -> usize
        ensures value { result ≡ most_outputs_of self.now.state action.now }
        ensures bound { length (own_step self.now action.now).outputs ≤ result }
        ensures few { result ≤ 65537 }
    {
        // For the proof: what the type of `self.row.get_fields()` keeps.
        let _row = self.row.get_fields();
        match action {
            Action::Tick => 1 + self.kept.resend_count(),
            Action::Arrive { modem: _, heard: _ }
            | Action::Work
            | Action::Reslice { from: _, row: _ } => 1,
        }
    }
}
