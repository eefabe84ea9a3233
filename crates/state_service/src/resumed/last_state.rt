//! What is made of the core after the last line.

ghost use Rattle.std.specs.Prelude.{◌≡◌};
ghost use Rattle.plant_core.specs.live.LiveView.{live_view};
ghost use Rattle.state_service.specs.resumed.LastStates.{IsLastState, restless_operator, name_at};

use crate::resumed::begin_fault::BeginFault;
use crate::resumed::items::snapshot_of_core;
use crate::resumed::service::ServiceState;
use plant::{Op, OperatorName, Plant};
use plant_core::RestFault;
use plant_restart::SaveFault;
use std::alloc::Global;

/// What is made of the core after the last line.
#[derive(Clone, Copy, Debug, PartialEq, Eq)]
pub(crate) enum AtEnd {
    /// Nothing.
    Nothing,
    /// A snapshot.
    Snapshot,
}

/// What was made of the core after the last line.
#[derive(Drop)]
pub(crate) enum LastState {
    /// The text of its snapshot.
    Saved {
        text: Vec<u8>,
    },
    /// Nothing: it does not rest before a frame, because of this operator.
    Unfinished {
        why: RestFault,
        operator: Option<OperatorName>,
    },
    /// Nothing: no snapshot is asked for, or memory ran out for it.
    NoSnapshot,
}

/// How a service ended that had a plant and states to begin with.
#[derive(Drop)]
pub(crate) enum BegunEnd {
    /// All lines of the input are answered.
    Served { last: LastState },
    /// It did not begin, for this reason. Nothing is written.
    NotBegun { fault: BeginFault },
}

/// Returns the operator because of which a core does not rest.
fn restless_operator(why: RestFault) -> Op
    ensures { result ≡ restless_operator why }
{
    match why {
        RestFault::FrameWaits { op } | RestFault::NotAtFrame { op } => op,
    }
}

/// Returns the name of an operator of a plant by its place.
fn name_at(plant: &Plant, op: Op) -> Option<OperatorName>
    ensures { result ≡ name_at plant.now.rows op }
{
    let row = plant.rows().get(op)?;
    Some(row.get_fields().name)
}

/// Returns what is made of the core of a service after its last line.
pub(crate) fn last_state(alloc: Global, service: &ServiceState, at_end: AtEnd) -> LastState
    ensures { IsLastState at_end service.now.file (live_view service.now.core) result }
{
    match at_end {
        AtEnd::Nothing => LastState::NoSnapshot,
        AtEnd::Snapshot => match snapshot_of_core(alloc, &service.core, &service.file) {
            Ok(text) => LastState::Saved { text },
            Err(SaveFault::Unfinished { why }) => LastState::Unfinished {
                why,
                operator: name_at(service.core.plant(), restless_operator(why)),
            },
            Err(SaveFault::NoMemory) => LastState::NoSnapshot,
        },
    }
}
