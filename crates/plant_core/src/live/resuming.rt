//! Resumes a live core of operators that are at work already.

ghost use Rattle.std.specs.Prelude.{◌≡◌, ◌↔◌, ◌≤◌, ◌<◌, [], map, length, replicate, All, IsTrue, true, false, Some, None, Option, Err, IfOk, IfErr, OnOk};
ghost use Rattle.map_assembly.specs.Plan.{AreSlices};
ghost use Rattle.map_assembly.specs.Gathering.{IsGathering};
ghost use Rattle.run_model.specs.Opened.{gathering_from, started_core};
ghost use Rattle.plant_core.specs.live.DeskView.{slot_book, slot_waiting};
ghost use Rattle.plant_core.specs.live.After.{IsAfterFrom};
ghost use Rattle.plant_core.specs.live.LiveOperator.{sound_of, row_of, current_slice, later_at, book_by, IsSoundAt, Shares, IsAtFrame, WaitsFrom, IsOdd};
ghost use Rattle.plant_core.specs.live.LiveView.{live_view};
ghost use Rattle.plant_core.specs.live.Resumed.{later_of, waits_from, first_from, slices_now, start_with, MayResume, IsOddFault, IsSliceFault, IsResumeFault};

use crate::live::core_memory::CoreMemory;
use crate::live::desk::LiveSlot;
use crate::live::held::LiveCore;
use crate::live::resume_fault::ResumeFault;
use map_assembly::{Gather, first_invalid_slice};
use operator_book::Machine;
use plant::{Op, Plant, Routes};
use slice_scheduler::Slice;
use std::alloc::{AllocError, AllocFailed, Global};
use std::collections::VecDeque;

/// Returns whether an operator is at this frame.
fn is_at(live: &Machine, frame: u32) -> bool
    ensures { IsTrue result ↔ IsAtFrame frame live.now }
{
    live.frame() == frame
}

/// Returns the frame from which an operator's next slice waits.
fn from_of(live: &Machine) -> Option<u32>
    ensures { result ≡ waits_from (sound_of live.now) }
{
    match live.next() {
        Some(next) => Some(next.from),
        None => None,
    }
}

/// Returns whether two slices wait from the same frame, or neither waits.
fn is_same(a: Option<u32>, b: Option<u32>) -> bool
    ensures { IsTrue result ↔ (a ≡ b) }
{
    match (a, b) {
        (None, None) => true,
        (Some(a), Some(b)) => a == b,
        _ => false,
    }
}

/// Returns whether an operator's next slice waits from this frame, or none waits.
fn does_wait(live: &Machine, from: Option<u32>) -> bool
    ensures { IsTrue result ↔ WaitsFrom from live.now }
{
    is_same(from_of(live), from)
}

/// Returns an operator's slice once what waits has taken force.
fn later_of(live: &Machine) -> Slice
    ensures { result ≡ later_of (sound_of live.now) }
{
    match live.next() {
        Some(next) => next.share.slice,
        None => live.share().slice,
    }
}

/// Returns the slice in force of each operator.
fn slices_of(alloc: Global, lives: &[Machine]) -> Result<Vec<Slice>, AllocError>
    ensures { IfOk result (λ slices. slices.items ≡ map current_slice lives.now) }
{
    let mut slices = Vec::with_capacity(alloc, lives.len())?;
    for live in lives {
        slices.push(live.share().slice)?;
    }
    Ok(slices)
}

/// Returns the slice of each operator once what waits has taken force.
fn later_slices(alloc: Global, lives: &[Machine]) -> Result<Vec<Slice>, AllocError>
    ensures { IfOk result (λ slices. slices.items ≡ map later_at lives.now) }
{
    let mut slices = Vec::with_capacity(alloc, lives.len())?;
    for live in lives {
        slices.push(later_of(live))?;
    }
    Ok(slices)
}

/// Returns a desk for each operator, at which no frame waits.
fn desks_of(alloc: Global, lives: Vec<Machine>) -> Result<Vec<LiveSlot>, AllocError>
    ensures books { IfOk result (λ desks. map slot_book desks.items ≡ map book_by lives.items) }
    ensures queues { IfOk result (λ desks. map slot_waiting desks.items ≡ replicate (length lives.items) []) }
{
    let mut desks = Vec::with_capacity(alloc, lives.len())?;
    for live in lives {
        desks.push(LiveSlot {
            live,
            waiting: VecDeque::new(alloc),
        })?;
    }
    Ok(desks)
}

/// Checks that an operator goes along with the others: it is at this frame, and its slice waits from that one on.
fn goes_along(live: &Machine, op: Op, frame: u32, from: Option<u32>) -> Result<(), ResumeFault>
    ensures sound { OnOk result (IsSoundAt live.now) }
    ensures frame { OnOk result (IsAtFrame frame live.now) }
    ensures alike { OnOk result (WaitsFrom from live.now) }
    ensures fault { IfErr result (IsOdd frame from op live.now) }
{
    // For the proof: what always holds of `live`.
    live.always();
    if !is_at(live, frame) {
        return Err(ResumeFault::NotAtFrame { op });
    }
    if !does_wait(live, from) {
        return Err(ResumeFault::SliceChangesDiffer { op });
    }
    Ok(())
}

/// Checks that all operators go along with one another.
fn go_together(lives: &[Machine], frame: u32, from: Option<u32>) -> Result<(), ResumeFault>
    ensures sound { OnOk result (All IsSoundAt lives.now) }
    ensures frames { OnOk result (All (IsAtFrame frame) lives.now) }
    ensures alike { OnOk result (All (WaitsFrom from) lives.now) }
    ensures fault { IfErr result (IsOddFault frame from (map sound_of lives.now)) }
{
    for op in 0..lives.len() {
        goes_along(&lives[op], op, frame, from)?;
    }
    Ok(())
}

/// Returns the frame from which the first operator's slice waits.
fn first_from(lives: &[Machine]) -> Option<u32>
    ensures { result ≡ first_from (map sound_of lives.now) }
{
    match lives.first() {
        Some(live) => from_of(live),
        None => None,
    }
}

/// Returns the slices in force, where they are valid.
fn valid_slices(alloc: Global, plant: &Plant, lives: &[Machine]) -> Result<Vec<Slice>, ResumeFault>
    ensures value { IfOk result (λ slices. slices.items ≡ map current_slice lives.now) }
    ensures valid { IfOk result (λ slices. AreSlices plant.now.consts.channel (length lives.now) slices.items) }
    ensures fault { IfErr result (IsSliceFault plant.now (map sound_of lives.now)) }
{
    let slices = slices_of(alloc, lives)?;
    match first_invalid_slice(plant.consts().get_fields().channel, slices.as_slice()) {
        Some(op) => Err(ResumeFault::InvalidSlice { op }),
        None => Ok(slices),
    }
}

/// Returns the slices once what waits has taken force, where they are valid.
fn valid_later(alloc: Global, plant: &Plant, lives: &[Machine]) -> Result<Vec<Slice>, ResumeFault>
    requires { AreSlices plant.now.consts.channel (length (map sound_of lives.now))
        (slices_now (map sound_of lives.now)) }
    ensures value { IfOk result (λ slices. slices.items ≡ map later_at lives.now) }
    ensures valid { IfOk result (λ slices. AreSlices plant.now.consts.channel (length lives.now) slices.items) }
    ensures fault { IfErr result (IsSliceFault plant.now (map sound_of lives.now)) }
{
    let slices = later_slices(alloc, lives)?;
    match first_invalid_slice(plant.consts().get_fields().channel, slices.as_slice()) {
        Some(op) => Err(ResumeFault::InvalidNextSlice { op }),
        None => Ok(slices),
    }
}

/// Returns the assembly of operators that are at this frame: no part is put, and a slice change that waits for all of them
/// waits there too.
fn gather_of(
    alloc: Global,
    plant: &Plant,
    frame: u32,
    from: Option<u32>,
    lives: &[Machine],
) -> Result<Gather, ResumeFault>
    requires may { MayResume plant.now frame (map sound_of lives.now) }
    requires alike { All (WaitsFrom from) lives.now }
    ensures value { IfOk result (λ gather. gather
        ≡ gathering_from plant.now (start_with plant.now frame (map sound_of lives.now))) }
    ensures kept { IfOk result (λ gather. IsGathering gather) }
    ensures started { OnOk result (plant.now.consts.channel.first_frame ≤ frame) }
    ensures fault { IfErr result (IsResumeFault plant.now frame (map sound_of lives.now)) }
{
    // For the proof: what the type of `plant.rows()` keeps.
    let _rows = plant.rows();
    if frame < plant.consts().get_fields().channel.first_frame {
        return Err(ResumeFault::BeforeFirstFrame);
    }
    let slices = valid_slices(alloc, plant, lives)?;
    let mut gather = Gather::resume(alloc, plant, frame, slices)?;
    match from {
        None => {
            // For the proof: what always holds of `gather`.
            gather.always();
            Ok(gather)
        }
        Some(from) => {
            let later = valid_later(alloc, plant, lives)?;
            gather.reslice(alloc, from, later)?;
            // For the proof: what always holds of `gather`.
            gather.always();
            Ok(gather)
        }
    }
}

impl LiveCore {
    /// Returns the core of a plant whose operators are at work already, all at `frame`: each goes on in its state, and no frame
    /// waits to be collected. `lives` has one operator for each row of the plant, in its order.
    ///
    /// Fails with the first fault in the order of `ResumeFault`, which names the operator (implementation-specific).
    pub fn resume(
        alloc: Global,
        plant: Plant,
        frame: u32,
        lives: Vec<Machine>,
    ) -> Result<LiveCore, ResumeFault>
        requires rows { map row_of lives.items ≡ plant.rows }
        requires consts { All (Shares plant.consts) lives.items }
        // Each operator is in its state, all at one frame.
        ensures ok { IfOk result (λ core. live_view core
            ≡ started_core plant (start_with plant frame (map sound_of lives.items))) }
        // The core is as it is reached from there by an empty list of steps.
        ensures reached { IfOk result (λ core. IsAfterFrom plant
            (start_with plant frame (map sound_of lives.items)) [] [] (live_view core)) }
        ensures fault { IfErr result (IsResumeFault plant frame (map sound_of lives.items)) }
    {
        // For the proof: what the type of `plant.rows()` keeps.
        let _rows = plant.rows();
        let from = first_from(lives.as_slice());
        go_together(lives.as_slice(), frame, from)?;
        let gather = gather_of(alloc, &plant, frame, from, lives.as_slice())?;
        let desks = desks_of(alloc, lives)?;
        let routes = Routes::new(alloc, plant)?;
        Ok(LiveCore {
            routes,
            desks,
            gather,
            memory: CoreMemory::new(alloc),
        })
    }
}
