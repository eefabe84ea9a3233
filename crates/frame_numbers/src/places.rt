//! Where frames are, seen from the next one.

ghost use Rattle.std.specs.Prelude.{◌≡◌};
ghost use Rattle.slice_scheduler.specs.Due.{interval_of};
ghost use Rattle.frame_numbers.specs.Seen.{interval_if, place_in};
ghost use Rattle.frame_numbers.specs.Numbering.{start_distance, since_distance, from_distance};

use flow_table::Flow;
use operator_model::NextShare;
use param_sets::{ParamSet, Scheduling, Units};

/// The greatest age of a backlog: a policy ranks an older one as one of this age.
const MOST_AGE: u32 = 255;

/// Returns the frames from one due frame to the next of a flow with this active set.
fn interval(units: Units, active: Option<ParamSet>) -> Option<u32>
    ensures { result ≡ interval_if units active }
{
    let fields = active?.get_fields();
    match fields.scheduling {
        Scheduling::BestEffort => None,
        Scheduling::NonRealTimePolling | Scheduling::RealTimePolling => {
            Some(units.frames(fields.polling_interval))
        }
        Scheduling::UnsolicitedGrant => Some(units.frames(fields.grant_interval)),
    }
}

/// Returns the place in its interval of a frame that is so many frames after one that is due.
fn place(interval: Option<u32>, frames: u32) -> u32
    ensures { result ≡ place_in interval frames }
{
    match interval {
        None | Some(0) => 0,
        Some(interval) => frames % interval,
    }
}

/// Returns how many frames before this one a flow's start has to be, so that it is due in the same frames.
pub(crate) fn place_before(units: Units, frame: u32, flow: &Flow) -> u32
    ensures { result ≡ start_distance units frame flow.now }
{
    place(
        interval(units, flow.sets.get_active()),
        frame.saturating_sub(flow.start),
    )
}

/// Returns how many frames before this one a flow's since has to be, so that its backlog has the same age.
pub(crate) fn age_before(frame: u32, flow: &Flow) -> u32
    ensures { result ≡ since_distance frame flow.now }
{
    MOST_AGE.min(frame.saturating_sub(flow.since))
}

/// Returns how many frames after this one a share takes force.
pub(crate) fn wait_after(frame: u32, next: &NextShare) -> u32
    ensures { result ≡ from_distance frame next.now }
{
    next.from.saturating_sub(frame)
}
