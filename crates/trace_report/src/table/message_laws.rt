//! The table against the machine: which check decides a message.

ghost use Rattle.std.specs.Prelude.{◌≡◌, ℕ, List};
ghost use Rattle.tlv24.specs.Law.{AreBytes};
ghost use Rattle.dsx_messages.specs.declared.modem.Modem.{Modem};
ghost use Rattle.dsx_messages.specs.Reading.{message_of};
ghost use Rattle.operator_model.specs.declared.heard.Heard.TheVariants as heards;
ghost use Rattle.operator_model.specs.State.{Operator};
ghost use Rattle.operator_model.specs.Sound.{IsSound};
ghost use Rattle.operator_model.specs.Handle.{StepResult, handle};
ghost use Rattle.trace_report.specs.declared.table.check.MessageCheck.{MessageCheck};
ghost use Rattle.trace_report.specs.table.Messages.{Reading, IsNoAck, IsHandledBy};

/// States that whatever the state that a machine can have, the modem and the bytes of a message
/// that is not an acknowledgement: a check of the table decides, the first that holds, and what
/// handling the message results in is what that check answers.
pub fn message_is_decided()
    ensures { (op : Operator) (modem : Modem) (bytes : List ℕ) → IsSound op → AreBytes bytes
        → IsNoAck (message_of bytes) → (check : MessageCheck)
        × IsHandledBy op modem (message_of bytes) check (handle op modem (heards.Message bytes)) }
{}

/// States that just one check decides a message, and handling it results in just one thing.
pub fn handled_once()
    ensures { (op : Operator) (modem : Modem) (reading : Reading) (a b : MessageCheck) (v w : StepResult) → IsSound op
        → IsHandledBy op modem reading a v → IsHandledBy op modem reading b w → (a ≡ b) × (v ≡ w) }
{}
