//! Which numbers frames cannot get.

ghost use Rattle.std.specs.Prelude.{◌≡◌};
ghost use Rattle.std.specs.List.{list_all};
ghost use Rattle.map_assembly.specs.Map.{frame_start};
ghost use Rattle.frame_numbers.specs.Numbering.{flow_fits, flows_fit, next_fits, renumber_refusal};

use crate::fault::RenumberFault;
use crate::places::{age_before, place_before, wait_after};
use param_sets::Units;
use plant::{Channel, Consts};
use snapshot_format::{SavedFlow, SavedOperator, Snapshot};

/// Returns when a frame begins: the low 32 bits of the minislots before it.
fn start_of_frame(channel: Channel, frame: u32) -> u32
    ensures { result ≡ frame_start channel frame }
{
    frame.wrapping_mul(channel.frame_minislots as u32)
}

/// Returns whether neither number of a flow would be before frame 0.
fn fits_flow(units: Units, from: u32, to: u32, saved: &SavedFlow) -> bool
    ensures { result ≡ flow_fits units from to saved.now }
{
    place_before(units, from, &saved.flow) <= to && age_before(from, &saved.flow) <= to
}

/// Returns whether no number of an operator's flows would be before frame 0.
fn fits_flows(units: Units, from: u32, to: u32, saved: &SavedOperator) -> bool
    ensures { result ≡ flows_fit units from to saved.now }
{
    let flows = saved.flows.as_slice();
    flows.iter().all(|flow| fits_flow(units, from, to, flow))
}

/// Returns whether the frame from which an operator's slice waits would have a number.
fn fits_next(from: u32, to: u32, saved: &SavedOperator) -> bool
    ensures { result ≡ next_fits from to saved.now }
{
    match &saved.next {
        None => true,
        Some(next) => wait_after(from, next) <= u32::MAX - to,
    }
}

/// Returns whether no number of any flow would be before frame 0.
fn fits_all_flows(units: Units, from: u32, to: u32, operators: &[SavedOperator]) -> bool
    ensures { result ≡ list_all (flows_fit units from to) operators.now }
{
    operators
        .iter()
        .all(|saved| fits_flows(units, from, to, saved))
}

/// Returns whether the frame from which each slice waits would have a number.
fn fits_all_next(from: u32, to: u32, operators: &[SavedOperator]) -> bool
    ensures { result ≡ list_all (next_fits from to) operators.now }
{
    operators.iter().all(|saved| fits_next(from, to, saved))
}

/// Returns why the next frame of a snapshot cannot be called `to`, if it cannot.
pub(crate) fn refusal(consts: &Consts, to: u32, saved: &Snapshot) -> Option<RenumberFault>
    ensures { result ≡ renumber_refusal consts.now to saved.now }
{
    let fields = consts.get_fields();
    let (channel, units, from) = (fields.channel, fields.units, saved.frame);
    let operators = saved.operators.as_slice();
    if start_of_frame(channel, to) != start_of_frame(channel, from) {
        return Some(RenumberFault::TimeSteps);
    }
    if !fits_all_flows(units, from, to, operators) {
        return Some(RenumberFault::TooLow);
    }
    if !fits_all_next(from, to, operators) {
        return Some(RenumberFault::TooHigh);
    }
    None
}
