//! Opens a live core.

ghost use Rattle.std.specs.Prelude.{◌≡◌, [], map, All, IfOk};
ghost use Rattle.plant.specs.Row.{IsRowOf};
ghost use Rattle.operator_model.specs.State.{operator, opened_state};
ghost use Rattle.run_model.specs.Opened.{opened_core};
ghost use Rattle.plant_core.specs.live.After.{IsAfter};
ghost use Rattle.plant_core.specs.live.LiveOperator.{sound_of};
ghost use Rattle.plant_core.specs.live.LiveView.{live_view};

use crate::live::held::LiveCore;
use operator_book::Machine;
use plant::{Consts, OperatorRow, Plant};
use std::alloc::{AllocError, Global};

/// Returns the machine of each operator as it is opened.
fn opened_lives(
    alloc: Global,
    rows: &[OperatorRow],
    consts: &Consts,
) -> Result<Vec<Machine>, AllocError>
    requires { All (IsRowOf consts.now) rows.now }
    ensures { IfOk result (λ lives. map sound_of lives.items
        ≡ map (λ row. operator consts.now row (opened_state consts.now row)) rows.now) }
{
    let mut lives = Vec::with_capacity(alloc, rows.len())?;
    for row in rows {
        lives.push(Machine::open(alloc, row, consts)?)?;
    }
    Ok(lives)
}

impl LiveCore {
    /// Returns the core of a plant with nothing done: its opened operators, resumed at its first
    /// frame. Fails only if memory runs out.
    pub fn open(alloc: Global, plant: Plant) -> Result<LiveCore, AllocError>
        ensures ok { IfOk result (λ core. live_view core ≡ opened_core plant) }
        ensures reached { IfOk result (λ core. IsAfter plant [] [] (live_view core)) }
    {
        let lives = opened_lives(alloc, plant.rows(), plant.consts())?;
        let first_frame = plant.consts().get_fields().channel.first_frame;
        match LiveCore::resume(alloc, plant, first_frame, lives) {
            Ok(core) => {
                // For the proof: what always holds of `core`.
                core.always();
                Ok(core)
            }
            Err(_) => Err(AllocError),
        }
    }
}
