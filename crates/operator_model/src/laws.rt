//! Laws of the machine.

ghost use Rattle.std.specs.Prelude.{ℕ, ◌≤◌, List};
ghost use Rattle.plant.specs.declared.consts.ConstsFields.{ConstsFields};
ghost use Rattle.plant.specs.declared.operator_row.RowFields.{RowFields};
ghost use Rattle.plant.specs.Row.{IsRowOf};
ghost use Rattle.operator_model.specs.declared.action.Action.{Action};
ghost use Rattle.operator_model.specs.declared.action.Entry.{Entry};
ghost use Rattle.operator_model.specs.State.{Operator, OperatorState, operator, opened_state, opened_before};
ghost use Rattle.operator_model.specs.Machine.{own_step, IsAllowed};
ghost use Rattle.operator_model.specs.Replay.{IsReplay};
ghost use Rattle.operator_model.specs.Sound.{IsSound};
ghost use Rattle.operator_model.specs.Repeats.{RepeatsChangeNothing};

/// States that a machine is opened sound: its provisioned flows have identifiers of their own in
/// the row's ranges, fit its limits, and have committed no more than its quota and its budget. That
/// the slice has a minislot is what each `Slice` has.
pub fn opened_is_sound()
    ensures { (consts : ConstsFields) (row : RowFields) → IsRowOf consts row → 1 ≤ row.slice.length
        → IsSound (operator consts row (opened_state consts row)) }
{}

/// States that an operator that is opened before a later frame than the plant's first one is sound too.
pub fn opened_before_is_sound()
    ensures { (frame : ℕ) (consts : ConstsFields) (row : RowFields) → IsRowOf consts row → 1 ≤ row.slice.length
        → IsSound (operator consts row (opened_before frame consts row)) }
{}

/// States that an action that is not refused leaves a sound state: no limit of the row is passed,
/// no SFID or SID is given twice, no more is committed than the quota and the budgets allow, and
/// each transaction that waits has a flow of its own.
pub fn step_keeps_sound()
    ensures { (op : Operator) (action : Action) → IsSound op → IsAllowed op action
        → IsSound (operator op.consts op.row (own_step op action).state) }
{}

/// States that the replay of a history is sound, whatever was done.
pub fn replay_is_sound()
    ensures { (consts : ConstsFields) (row : RowFields) (history : List Entry) (state : OperatorState)
        → IsRowOf consts row → 1 ≤ row.slice.length → IsReplay consts row history state
        → IsSound (operator consts row state) }
{}

/// States that a request that is repeated changes nothing, and gets the cached reply again,
/// whatever it says now.
pub fn repeat_changes_nothing()
    ensures { RepeatsChangeNothing }
{}
