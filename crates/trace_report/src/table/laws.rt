//! The table against the machine: which check decides a request.

ghost use Rattle.std.specs.Prelude.{◌≡◌};
ghost use Rattle.dsx_messages.specs.declared.message.Request.{Request};
ghost use Rattle.dsx_messages.specs.declared.modem.Modem.{Modem};
ghost use Rattle.operator_model.specs.declared.verdict.Verdict.{Verdict};
ghost use Rattle.operator_model.specs.State.{Operator};
ghost use Rattle.operator_model.specs.Sound.{IsSound};
ghost use Rattle.operator_model.specs.Verdict.{verdict};
ghost use Rattle.trace_report.specs.declared.table.check.Check.{Check};
ghost use Rattle.trace_report.specs.table.Said.{Said, said_by};
ghost use Rattle.trace_report.specs.table.Table.{IsDecidedBy};

/// States that whatever the state that a machine can have, the modem and the request: a check of
/// the table decides, the first that holds, and the machine's verdict is what that check answers.
pub fn verdict_is_decided()
    ensures { (op : Operator) (modem : Modem) (request : Request) → IsSound op
        → (check : Check) × IsDecidedBy op modem (said_by request) check (verdict op modem request) }
{}

/// States that just one check decides a request, with just one answer.
pub fn decided_once()
    ensures { (op : Operator) (modem : Modem) (said : Said) (a b : Check) (v w : Verdict) → IsSound op
        → IsDecidedBy op modem said a v → IsDecidedBy op modem said b w → (a ≡ b) × (v ≡ w) }
{}
