//! A tick: the timers, the frame, and the next frame's share.

ghost use Rattle.std.specs.Prelude.{◌≡◌, ◌<◌, ◌+◌, [], ◌∷◌, ◌++◌, map, IfOk};
ghost use Rattle.operator_model.specs.declared.output.Output.TheVariants as outputs;
ghost use Rattle.flow_table.specs.Flow.{flow_after_grant};
ghost use Rattle.operator_model.specs.Changed.{with_flows, with_change};
ghost use Rattle.operator_model.specs.Frame.{tick_result, resent, all_undone, all_granted, share_at, next_at, frame_elements, frame_grants};
ghost use Rattle.operator_model.specs.Sound.{IsSound};
ghost use Rattle.transactions.specs.Timers.{given_up_in};
ghost use Rattle.operator_book.specs.Planned.{IsPlanFor, state_after_tick};

use crate::machine::MachineState;
use crate::plan::{Effect, Plan, SpareOutputs};
use crate::tick_memory::TickMemory;
use grant_policy::Ranks;
use operator_model::{Output, given_up_have_no_grants, schedule_can_serve};
use slice_scheduler::{At, AtFields, Elements, Served};
use std::alloc::{AllocError, Global};
use transactions::{GivenUp, Resends, Ticked};

/// Returns the outputs of a tick: what is retransmitted, then the frame.
fn frame_outputs(
    spare: SpareOutputs,
    resends: Resends,
    number: u32,
    elements: Elements,
) -> Result<Vec<Output>, AllocError>
    ensures { IfOk result (λ told. told.items ≡ map resent resends ++ outputs.Frame number elements ∷ []) }
{
    let mut told = spare.into_list();
    for resend in resends.into_vec() {
        told.push(Output::Reply {
            modem: resend.modem,
            bytes: resend.reply,
        })?;
    }
    told.push(Output::Frame { number, elements })?;
    Ok(told)
}

impl MachineState {
    /// Returns the schedule of the frame. What is abandoned has no grants, so that it may be
    /// scheduled before anything is undone.
    fn frame_schedule<R: Ranks>(
        &self,
        alloc: Global,
        memory: &mut TickMemory,
        ranking: &R,
    ) -> Result<Served, AllocError>
        requires sound { IsSound self.now }
        requires policy { R.policy ranking.now ≡ self.now.row.policy }
        ensures elements { IfOk result (λ served. served.elements ≡ frame_elements self.now) }
        ensures granted { IfOk result (λ served. served.granted ≡ frame_grants self.now) }
    {
        // For the proof: the slice in force can serve the flows.
        schedule_can_serve();
        given_up_have_no_grants();
        let consts = self.consts.get_fields();
        self.flows.flowing_into(&mut memory.flowing)?;
        let at = At::new(AtFields {
            slice: self.share.slice,
            frame: self.frame,
            short_max: consts.short_max,
            units: consts.units,
        });
        let flowing = memory.flowing.as_slice();
        let served = memory.scheduler.schedule(alloc, flowing, &at, ranking)?;
        Ok(served)
    }

    /// Undoes what is abandoned, in order.
    fn undo_all(&mut self, given_up: &[GivenUp])
        ensures { self.new ≡ with_flows self.old (all_undone given_up.now self.old.state.flows) }
    {
        for gone in given_up {
            self.undo(gone.kind, gone.sfid);
        }
    }

    /// Lowers the backlog of a flow by its grant of this frame.
    fn grant(&mut self, frame: u32, sfid: u32, minislots: u16)
        requires { frame < 4294967295 }
        ensures { self.new ≡ with_change self.old sfid (flow_after_grant minislots frame) }
    {
        self.flows.grant(sfid, minislots, frame);
    }

    /// Lowers the backlog of each flow by its grant of this frame.
    fn grant_all(&mut self, frame: u32, grants: &[(u32, u16)])
        requires { frame < 4294967295 }
        ensures { self.new ≡ with_flows self.old (all_granted frame grants.now self.old.state.flows) }
    {
        for granted in grants {
            self.grant(frame, granted.0, granted.1);
        }
    }

    /// Goes on to the next frame, and takes the share that waits for it.
    fn go_on(&mut self)
        requires { self.old.state.frame < 4294967295 }
        ensures { self.new ≡ record self.old {
          state = record self.old.state {
            frame = self.old.state.frame + 1;
            share = share_at (self.old.state.frame + 1) self.old.state.share self.old.state.next;
            next = next_at (self.old.state.frame + 1) self.old.state.next;
          };
        } }
    {
        self.frame += 1;
        if let Some(next) = self.next {
            if next.from == self.frame {
                self.share = next.share;
                self.next = None;
            }
        }
    }

    /// Plans a tick. The timers count when it is committed.
    pub(crate) fn tick_plan<R: Ranks>(
        &self,
        alloc: Global,
        spare: SpareOutputs,
        memory: &mut TickMemory,
        ranking: &R,
    ) -> Result<Plan, AllocError>
        requires sound { IsSound self.now }
        requires policy { R.policy ranking.now ≡ self.now.row.policy }
        requires not_spent { self.now.state.frame < 4294967295 }
        ensures { IfOk result (IsPlanFor self.now (tick_result self.now)) }
    {
        let Served { elements, granted } = self.frame_schedule(alloc, memory, ranking)?;
        let Ticked { resend, given_up } = self.kept.due(alloc)?;
        Ok(Plan {
            outputs: frame_outputs(spare, resend, self.frame, elements)?,
            effect: Effect::Ticked { granted, given_up },
        })
    }

    /// Counts the timers one tick on, undoes what is abandoned, takes the grants off the backlogs,
    /// and goes on to the next frame.
    pub(crate) fn pass_frame(&mut self, granted: &[(u32, u16)], given_up: &[GivenUp])
        requires not_spent { self.old.state.frame < 4294967295 }
        requires given_up { given_up.now ≡ given_up_in self.old.state.kept }
        ensures { self.new ≡ record self.old { state = state_after_tick self.old granted.now } }
    {
        self.kept.count_down();
        self.undo_all(given_up);
        self.grant_all(self.frame, granted);
        self.go_on();
    }
}
