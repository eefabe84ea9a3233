//! What is opened, what an action leaves, and what a history results in.

ghost use Rattle.std.specs.Prelude.{◌≤◌, List};
ghost use Rattle.plant.specs.declared.consts.ConstsFields.{ConstsFields};
ghost use Rattle.plant.specs.declared.operator_row.RowFields.{RowFields};
ghost use Rattle.plant.specs.Row.{IsRowOf};
ghost use Rattle.operator_model.specs.declared.action.Action.{Action};
ghost use Rattle.operator_model.specs.declared.action.Entry.{Entry};
ghost use Rattle.operator_model.specs.State.{OperatorState, Operator, opened_state};
ghost use Rattle.operator_model.specs.Machine.{own_step, IsAllowed};
ghost use Rattle.operator_model.specs.Replay.{IsReplay};
ghost use Rattle.operator_model.specs.Sound.{IsSound};
ghost use Rattle.trace_report.specs.table.Awaited.{AreAwaited};

/// States that no sets are pending of a machine that is opened.
pub fn opened_is_awaited()
    ensures { (consts : ConstsFields) (row : RowFields) → AreAwaited (opened_state consts row) }
{}

/// States that an action that is not refused leaves each flow of which sets are pending a response
/// that waits for it.
pub fn step_keeps_awaited()
    ensures { (op : Operator) (action : Action) → IsSound op → AreAwaited op.state → IsAllowed op action
        → AreAwaited (own_step op action).state }
{}

/// States that the replay of a history leaves each flow with pending sets such a response, whatever
/// was done.
pub fn replay_is_awaited()
    ensures { (consts : ConstsFields) (row : RowFields) (history : List Entry) (state : OperatorState)
        → IsRowOf consts row → 1 ≤ row.slice.length → IsReplay consts row history state → AreAwaited state }
{}
