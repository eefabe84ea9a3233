//! Laws of the frames that the machine outputs.

ghost use Rattle.std.specs.Prelude.{◌≡◌, ◌≢◌, ◌==◌, ◌+◌, ◌≤◌, true, length, All, count_by};
ghost use Rattle.std.specs.List.{list_all};
ghost use Rattle.slice_scheduler.specs.Servable.{SfidsAscend, IsPast, total_need};
ghost use Rattle.slice_scheduler.specs.Tiles.{IsTiled};
ghost use Rattle.plant.specs.Row.{IsRow};
ghost use Rattle.flow_table.specs.Table.{flowing_in};
ghost use Rattle.operator_model.specs.State.{Operator};
ghost use Rattle.operator_model.specs.Frame.{at_frame, flows_left, frame_elements};
ghost use Rattle.operator_model.specs.Frames.{FramesHaveNoGap, NextFrameFollows};
ghost use Rattle.operator_model.specs.Slices.{FramesHaveTheirSlices, NextSliceIsInForce, ReplayedSliceIsInForce, FramesFollowTheirState, NextSliceFollowsItsState};
ghost use Rattle.operator_model.specs.Part.{is_own_sid};
ghost use Rattle.operator_model.specs.Sound.{IsSound};

/// States that the slice in force can serve the flows: they are sorted by SFID, none is of a later
/// frame, and what their active sets need fits the slice.
pub fn schedule_can_serve()
    // The flows are sorted by SFID.
    ensures ascending { (op : Operator) → IsSound op → SfidsAscend (flowing_in op.state.flows) }
    // No start and no age is of a later frame.
    ensures past { (op : Operator) → IsSound op → All (IsPast op.state.frame) (flowing_in op.state.flows) }
    // What the active sets need fits the slice.
    ensures within { (op : Operator) → IsSound op
        → total_need (at_frame op) (flowing_in op.state.flows) ≤ op.state.share.slice.length }
{}

/// States that what a tick abandons is not scheduled, and leaves all that is scheduled: a new flow
/// has no set, and a flow of which a change is taken back keeps its sets, and its SID where a set
/// is admitted.
pub fn given_up_have_no_grants()
    ensures { (op : Operator) → IsSound op → flowing_in (flows_left op.state) ≡ flowing_in op.state.flows }
{}

/// States that what a tick outputs is the operator's part of the frame's MAP: it is of the slice in
/// force and tiles it, with SIDs of the row's range or nobody's, at most one span is nobody's, and
/// it has no more elements than the row's quota and one for what is left of the slice.
pub fn frame_is_a_part()
    // It is of the slice in force.
    ensures slice { (op : Operator) → (frame_elements op).slice ≡ op.state.share.slice }
    // Its spans are the minislots of the slice, each in exactly one.
    ensures tiled { (op : Operator) → IsSound op → IsTiled (frame_elements op) }
    // Each span has a SID of the row's range or SID 0.
    ensures spans_mine { (op : Operator) → IsSound op
        → list_all (λ span. is_own_sid op.row.sids span.sid) (frame_elements op).spans ≡ true }
    ensures pending_mine { (op : Operator) → IsSound op
        → list_all (λ sid. is_own_sid op.row.sids sid) (frame_elements op).pending ≡ true }
    ensures spans_not_null { (op : Operator) → IsSound op → IsRow op.row
        → count_by (λ span. span.sid == 0) (frame_elements op).spans ≤ 1 }
    ensures pending_not_null { (op : Operator) → IsSound op → IsRow op.row
        → All (λ sid. sid ≢ 0) (frame_elements op).pending }
    // It has at most one element more than the quota.
    ensures few { (op : Operator) → IsSound op
        → length (frame_elements op).spans + length (frame_elements op).pending ≤ op.row.elements + 1 }
{}

/// States that the frames of a run are numbered from the state's frame number on, one for each
/// tick, in order and with no gap; the next one follows them.
pub fn frames_have_no_gap()
    ensures numbers { FramesHaveNoGap }
    ensures next { NextFrameFollows }
{}

/// States that over a run of actions, each allowed at its place, each frame that is output is of
/// the slice of its number: that of the newest slice change that is not from a later frame on, at
/// first the row's. So is the slice in force after it.
pub fn frames_are_shares()
    // Each frame has the slice that is in force for its number.
    ensures frames { FramesHaveTheirSlices }
    ensures in_force { NextSliceIsInForce }
    ensures replayed { ReplayedSliceIsInForce }
{}

/// States the same of a run from any sound state: at first the slice in force holds, then the one that waits, then those that
/// the run is given.
pub fn frames_follow_their_state()
    ensures frames { FramesFollowTheirState }
    ensures in_force { NextSliceFollowsItsState }
{}
