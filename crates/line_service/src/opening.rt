//! The core of a plant that is to be served.

ghost use Rattle.std.specs.Prelude.{[], IfOk};
ghost use Rattle.plant_core.specs.live.After.{IsAfter, IsReachableFromStart};
ghost use Rattle.plant_core.specs.live.LiveView.{live_view};

use plant::Plant;
use plant_core::LiveCore;
use std::alloc::{AllocError, Global};

/// Returns a core without histories of the plant, as it is opened. An error is out of memory.
pub fn open_core(alloc: Global, plant: Plant) -> Result<LiveCore, AllocError>
    ensures opened { IfOk result (λ core. IsAfter plant [] [] (live_view core)) }
    ensures reached { IfOk result (λ core. IsReachableFromStart (live_view core)) }
{
    let core = LiveCore::open(alloc, plant)?;
    Ok(core)
}
