//! Gathering the operators' parts of each frame to its MAP.

ghost use Rattle.std.specs.Prelude.{◌≡◌, ◌≢◌, ◌↔◌, ℕ, ◌+◌, ◌<◌, ◌≤◌, [], ◌∷◌, ◌++◌, true, false, List, map, drop, replicate, length, All, IsTrue, slice_get, Option, Some, None, Result, Ok, Err, IfOk, IfErr, OnOk, OnErr};
ghost use Rattle.slice_scheduler.specs.Minislots.{Minislots};
ghost use Rattle.slice_scheduler.specs.Tiles.{IsTiled};
ghost use Rattle.slice_scheduler.specs.declared.elements.ElementsFields.{ElementsFields};
ghost use Rattle.map_assembly.specs.Part.{quota_of};
ghost use Rattle.map_assembly.specs.Plan.{AreSlices};
ghost use Rattle.map_assembly.specs.Gathering.{gathering_of, gathering_at, fits_at, queue_of, put_fault, with_part, is_whole, is_last, after_put, frame_out, next_of, frame_slices, frame_parts, MayReslice, gathering_after_reslice, IsGathering};
ghost use Rattle.map_assembly.specs.Assembled.{IsMapOf, IsPutResult};
ghost use Rattle.map_assembly.specs.LettingGo.{has_begun, GoesOnAlike};
ghost use Rattle.map_assembly.specs.declared.refused.GatherFault.{GatherFault};
ghost use Rattle.map_assembly.specs.declared.refused.GatherFault.TheVariants.{NoMemory};

use crate::assembling::map_bytes;
use crate::checking::are_slices;
use crate::map_bytes::MapBytes;
use crate::memory::MapMemory;
use crate::queue::{Queue, is_whole};
use crate::quota::Quota;
use crate::refused::{GatherFault, Refused};
use crate::slicing::{Reslicing, Slicing, slices_at};
use plant::{Channel, Op, OperatorRow, Plant};
use slice_scheduler::{Elements, Slice};
use std::alloc::{AllocError, Global};
use std::marker::Model;
use std::mem::replace;

/// The operators' parts of frames, gathered to MAPs. Each operator puts its parts frame by frame, from the plant's first
/// frame on. Contracts see what is gathered.
#[derive(Debug)]
pub struct Gather {
    channel: Channel,
    quotas: Vec<Quota>,
    slices: Slicing,
    reslicings: Vec<Reslicing>,
    queues: Vec<Queue>,
    next: u64,
    memory: MapMemory,
}

/// Written out, so that the crates above prove nothing of how what is gathered is dropped.
impl Drop for Gather {
    fn drop(self) {
        let Gather {
            channel: _,
            quotas: _,
            slices: _,
            reslicings: _,
            queues: _,
            next: _,
            memory: _,
        } = self;
    }
}

impl Model for Gather {
    ghost use Rattle.map_assembly.specs.Gathering.{Gathering, IsGathering};

    ghost Value = { Gathering };

    ghost view = { λ g. record {
      channel = g.channel;
      quotas = g.quotas.items;
      slices = g.slices;
      reslicings = g.reslicings.items;
      queues = g.queues.items;
      next = g.next;
    } };

    ghost invariant = { λ g. IsGathering (record {
      channel = g.channel;
      quotas = g.quotas.items;
      slices = g.slices;
      reslicings = g.reslicings.items;
      queues = g.queues.items;
      next = g.next;
    }) };
}

/// Returns whether an operator with these quotas may put a part where these are the slices.
fn fits_at(quotas: &[Quota], slices: &[Slice], op: Op, part: &Elements) -> bool
    ensures { result ≡ fits_at (slice_get quotas.now op) (slice_get slices.now op) part.now }
{
    match (quotas.get(op), slices.get(op)) {
        (Some(quota), Some(slice)) => quota.fits(*slice, part),
        _ => false,
    }
}

/// Returns how many parts of an operator are in no MAP yet.
fn queue_len(queues: &[Queue], op: Op) -> usize
    ensures { result ≡ length (queue_of queues.now op) }
{
    match queues.get(op) {
        Some(queue) => queue.len(),
        None => 0,
    }
}

/// Returns whether a part of `op` is the last one of its frame: each other operator has put one.
fn is_last(queues: &[Queue], op: Op) -> bool
    requires { op < length queues.now }
    ensures { (part : ElementsFields) → result ≡ is_whole (with_part queues.now op part) }
{
    is_whole(&queues[..op]) && is_whole(&queues[op + 1..])
}

/// Takes the first part of each operator out, and keeps its memory.
fn drop_fronts(queues: &mut [Queue])
    ensures { queues.new ≡ map (λ queue. drop 1 queue) queues.old }
{
    for queue in queues.iter_mut() {
        queue.drop_front();
    }
}

/// Returns a part of this operator whose MAP is made, if one is kept.
#[tactic(auto, using(crate::proofs::StateLemmas::queue_same))]
fn take_spent(queues: &mut [Queue], op: Op) -> Option<Elements>
    ensures { queues.new ≡ queues.old }
{
    if op >= queues.len() {
        return None;
    }
    queues[op].take_spent()
}

/// Keeps a part of this operator whose MAP is made, for its memory.
#[tactic(auto, using(crate::proofs::StateLemmas::queue_same))]
fn keep_spent(queues: &mut [Queue], op: Op, part: Elements)
    ensures { queues.new ≡ queues.old }
{
    if op >= queues.len() {
        return;
    }
    queues[op].keep_spent(part);
}

/// Returns what each operator may put.
fn quotas_of(alloc: Global, rows: &[OperatorRow]) -> Result<Vec<Quota>, AllocError>
    ensures { IfOk result (λ quotas. quotas.items ≡ map quota_of rows.now) }
{
    rows.iter().map(Quota::of).collect(alloc)
}

/// Returns the slice of an operator.
fn slice_of(row: &OperatorRow) -> Slice
    ensures value { result ≡ row.now.slice }
    ensures some { 1 ≤ result.length }
{
    let slice = row.get_fields().slice;
    // For the proof: what the type of `slice.get_length()` keeps.
    let _length = slice.get_length();
    slice
}

/// Returns the slice of each operator.
fn slices_of(alloc: Global, rows: &[OperatorRow]) -> Result<Vec<Slice>, AllocError>
    ensures value { IfOk result (λ slices. slices.items ≡ map (λ row. row.slice) rows.now) }
    ensures some { IfOk result (λ slices. All (λ slice. 1 ≤ slice.length) slices.items) }
{
    let mut slices = Vec::with_capacity(alloc, rows.len())?;
    for row in rows {
        slices.push(slice_of(row))?;
    }
    Ok(slices)
}

/// Returns so many queues without a part.
fn no_queues(alloc: Global, count: usize) -> Result<Vec<Queue>, AllocError>
    ensures { IfOk result (λ queues. queues.items ≡ replicate count []) }
{
    let mut queues = Vec::with_capacity(alloc, count)?;
    for _op in 0..count {
        queues.push(Queue::new(alloc))?;
    }
    Ok(queues)
}

/// Returns whether each of these slice changes is from an earlier frame on.
fn all_earlier(reslicings: &[Reslicing], from: u32) -> bool
    ensures { IsTrue result ↔ All (λ r. r.from < from) reslicings.now }
{
    reslicings.iter().all(|reslicing| reslicing.from < from)
}

/// Returns whether an operator with so many parts from the frame `next` on has put none yet, or
/// none of the frame `from` or a later one.
fn is_past(first: u32, next: u64, parts: usize, from: u32) -> bool
    requires { first ≤ next }
    ensures { IsTrue result ↔ (first < next + parts → next + parts ≤ from) }
{
    if next == first as u64 && parts == 0 {
        return true;
    }
    next <= from as u64 && parts as u64 <= from as u64 - next
}

/// Returns whether each part put is of a frame before `from`, given the parts from the frame `next`
/// on.
fn all_past(first: u32, next: u64, queues: &[Queue], from: u32) -> bool
    requires { first ≤ next }
    ensures { IsTrue result ↔ All (λ queue. first < next + length queue → next + length queue ≤ from) queues.now }
{
    queues
        .iter()
        .all(|queue| is_past(first, next, queue.len(), from))
}

impl Gather {
    /// Creates the assembly of a plant to which no operator has put a part.
    pub fn new(alloc: Global, plant: &Plant) -> Result<Gather, AllocError>
        ensures { IfOk result (λ gather. gather ≡ gathering_of plant.now) }
    {
        let first_frame = plant.consts().get_fields().channel.first_frame;
        let slices = slices_of(alloc, plant.rows())?;
        Gather::resume(alloc, plant, first_frame, slices)
    }

    /// Returns the assembly of a plant that goes on at `frame`: no part is put, and `slices` are in force, one for each operator
    /// in the plant's order. The slices are valid (`are_slices_of` is the test).
    pub fn resume(
        alloc: Global,
        plant: &Plant,
        frame: u32,
        slices: Vec<Slice>,
    ) -> Result<Gather, AllocError>
        requires slices { AreSlices plant.now.consts.channel (length plant.now.rows) slices.items }
        requires started { plant.now.consts.channel.first_frame ≤ frame }
        ensures { IfOk result (λ gather. gather ≡ gathering_at plant.now frame slices.items) }
    {
        let rows = plant.rows();
        let quotas = quotas_of(alloc, rows)?;
        let queues = no_queues(alloc, rows.len())?;
        let slices = Slicing::new(alloc, slices)?;
        Ok(Gather {
            channel: plant.consts().get_fields().channel,
            quotas,
            slices,
            reslicings: Vec::new(alloc),
            queues,
            next: frame as u64,
            memory: MapMemory::new(alloc),
        })
    }

    /// Returns why a part is refused, in the order in which this is tried.
    fn fault_of(&self, op: Op, frame: u32, part: &Elements) -> Option<GatherFault>
        ensures { result ≡ put_fault self.now op frame part.now }
    {
        if op >= self.quotas.len() {
            return Some(GatherFault::Stranger);
        }
        if (frame as u64) < self.next {
            return Some(GatherFault::Old { frame });
        }
        let ahead = frame as u64 - self.next;
        let put = queue_len(self.queues.as_slice(), op) as u64;
        if ahead < put {
            return Some(GatherFault::PutTwice);
        }
        if put < ahead {
            return Some(GatherFault::Early { frame });
        }
        let slicing = slices_at(&self.slices, self.reslicings.as_slice(), frame);
        if fits_at(self.quotas.as_slice(), slicing.as_slice(), op, part) {
            None
        } else {
            Some(GatherFault::WrongSlice)
        }
    }

    /// Keeps a part that is not the last one of its frame. Where no memory is left, hands it back, and nothing has changed.
    fn keep(&mut self, op: Op, elements: Elements) -> Result<(), Elements>
        requires put { put_fault self.old op (next_of self.old op) elements ≡ None }
        requires waits { is_last self.old op elements ≡ false }
        ensures ok { OnOk result (self.new ≡ after_put self.old op elements) }
        ensures err { IfErr result (λ back. (back ≡ elements) × (self.new ≡ self.old)) }
    {
        // For the proof: what always holds of `elements`.
        elements.always();
        let queue = &mut self.queues[op];
        match queue.push(elements) {
            Ok(()) => Ok(()),
            Err(elements) => Err(elements),
        }
    }

    /// Writes the bytes of the MAP whose last part is this one to the bytes of `memory`.
    fn map_of(
        &self,
        memory: &mut MapMemory,
        op: Op,
        frame: u32,
        part: &Elements,
    ) -> Result<(), AllocError>
        requires put { put_fault self.now op frame part.now ≡ None }
        requires last { is_last self.now op part.now ≡ true }
        ensures next { frame ≡ self.now.next }
        ensures valid { IsGathering (frame_out self.now frame) }
        ensures after { frame_out self.now frame ≡ after_put self.now op part.now }
        ensures bytes { OnOk result (IsMapOf self.now.channel frame self.now.quotas
            (frame_slices self.now frame) (frame_parts self.now op part.now) memory.new.bytes.items) }
    {
        // For the proof: what always holds of `part`.
        part.always();
        let slicing = slices_at(&self.slices, self.reslicings.as_slice(), frame);
        let queues = self.queues.as_slice();
        map_bytes(
            memory,
            self.channel,
            frame,
            slicing.order(),
            queues,
            op,
            part,
        )
    }

    /// Takes the parts of a frame out once its MAP is made.
    fn finish(&mut self, frame: u32)
        requires { IsGathering (frame_out self.old frame) }
        ensures { self.new ≡ frame_out self.old frame }
    {
        drop_fronts(self.queues.as_mut_slice());
        self.next = frame as u64 + 1;
    }

    /// Returns the memory for the next MAP, and leaves none in its place.
    fn take_memory(&mut self, alloc: Global) -> MapMemory
        ensures { self.new ≡ self.old }
    {
        replace(&mut self.memory, MapMemory::new(alloc))
    }

    /// Keeps a part whose MAP is made for its memory, and the memory of the MAP's elements.
    fn keep_memory(&mut self, op: Op, part: Elements, memory: MapMemory)
        ensures { self.new ≡ self.old }
    {
        keep_spent(self.queues.as_mut_slice(), op, part);
        self.memory = memory;
    }

    /// Puts the last part of a frame, and returns its MAP. Where no memory is left, hands the part
    /// back, and nothing has changed.
    fn put_last(
        &mut self,
        alloc: Global,
        op: Op,
        frame: u32,
        elements: Elements,
    ) -> Result<MapBytes, Elements>
        requires put { put_fault self.old op frame elements ≡ None }
        requires last { is_last self.old op elements ≡ true }
        ensures state { OnOk result (self.new ≡ after_put self.old op elements) }
        ensures next { frame ≡ self.old.next }
        ensures frame { IfOk result (λ map. map.frame ≡ frame) }
        ensures bytes { IfOk result (λ map. IsMapOf self.old.channel frame self.old.quotas
            (frame_slices self.old frame) (frame_parts self.old op elements) map.bytes) }
        ensures err { IfErr result (λ back. (back ≡ elements) × (self.new ≡ self.old)) }
    {
        let mut memory = self.take_memory(alloc);
        match self.map_of(&mut memory, op, frame, &elements) {
            Ok(()) => {
                let bytes = memory.take_bytes(alloc);
                self.finish(frame);
                self.keep_memory(op, elements, memory);
                Ok(MapBytes { frame, bytes })
            }
            Err(_) => Err(elements),
        }
    }

    /// Returns whether a part of this operator is the last one of its frame.
    fn is_last(&self, op: Op) -> bool
        requires { op < length self.now.quotas }
        ensures { (part : ElementsFields) → result ≡ is_last self.now op part }
    {
        is_last(self.queues.as_slice(), op)
    }

    /// Puts an operator's part of a frame. The last part of a frame gives its MAP; each other one nothing.
    ///
    /// Faults, in this order: `Stranger`, `Old`, `PutTwice`, `Early`, `WrongSlice`, `NoMemory`. Each hands the elements back,
    /// and nothing has changed.
    pub fn put(
        &mut self,
        alloc: Global,
        op: Op,
        frame: u32,
        elements: Elements,
    ) -> Result<Option<MapBytes>, Refused>
        ensures state { OnOk result (self.new ≡ after_put self.old op elements) }
        // A MAP comes exactly with the last part of a frame. Its bytes follow from the frame, the layout and the parts
        // alone. It reads as the parts that were put, and gives no minislot twice.
        ensures map { IfOk result (IsPutResult self.old op frame elements) }
        ensures goes { OnOk result (put_fault self.old op frame elements ≡ None) }

        // Each refusal comes exactly in its case.
        ensures fault { (fault : GatherFault) → fault ≢ NoMemory
            → ((result ≡ Err (record { fault = fault; elements = elements }))
            ↔ (put_fault self.old op frame elements ≡ Some fault)) }
        ensures refused { IfErr result (λ refused. refused.elements ≡ elements) }
        ensures memory { IfErr result (λ refused. refused.fault ≡ NoMemory
            → put_fault self.old op frame elements ≡ None) }
        // A refusal changes nothing.
        ensures err { OnErr result (self.new ≡ self.old) }
    {
        if let Some(fault) = self.fault_of(op, frame, &elements) {
            return Err(Refused { fault, elements });
        }
        if !self.is_last(op) {
            return match self.keep(op, elements) {
                Ok(()) => Ok(None),
                Err(elements) => Err(Refused {
                    fault: GatherFault::NoMemory,
                    elements,
                }),
            };
        }
        match self.put_last(alloc, op, frame, elements) {
            Ok(map) => Ok(Some(map)),
            Err(elements) => Err(Refused {
                fault: GatherFault::NoMemory,
                elements,
            }),
        }
    }

    /// Returns a part of this operator whose MAP is made, if one is kept, for its memory. What is
    /// gathered stays as it is.
    pub fn take_spent(&mut self, op: Op) -> Option<Elements>
        ensures { self.new ≡ self.old }
    {
        take_spent(self.queues.as_mut_slice(), op)
    }

    /// Takes the memory of a MAP back that nobody needs any more. What is gathered stays as it is.
    pub fn take_back(&mut self, map: MapBytes)
        ensures { self.new ≡ self.old }
    {
        if let Some(bytes) = map.bytes.into_vec() {
            self.memory.bytes = bytes;
        }
    }

    /// States what always holds of what is gathered, for a caller's proof. Does nothing.
    pub fn always(&self)
        ensures { IsGathering self.now }
    {
        // For the proof: what the type keeps, as the check knows where a field is read.
        let _ = &self.channel;
    }

    /// Returns whether new slices may be given from a frame on: they are valid slices, one for each
    /// operator in the plant's order, and the frame is after each of which a part is put and after
    /// that of each earlier slice change. Takes no memory.
    pub fn may_reslice(&self, from: u32, slices: &[Slice]) -> bool
        ensures { IsTrue result ↔ MayReslice self.now from slices.now }
    {
        are_slices(self.channel, self.quotas.len(), slices)
            && all_earlier(self.reslicings.as_slice(), from)
            && all_past(
                self.channel.first_frame,
                self.next,
                self.queues.as_slice(),
                from,
            )
    }

    /// Gives the operators new slices from a frame on, in the plant's order. The caller knows that
    /// it may.
    pub fn reslice(
        &mut self,
        alloc: Global,
        from: u32,
        slices: Vec<Slice>,
    ) -> Result<(), AllocError>
        requires { MayReslice self.old from slices.items }
        ensures state { OnOk result (self.new ≡ gathering_after_reslice self.old from slices.items) }
        // The slices of earlier frames stay.
        ensures before { OnOk result ((frame : ℕ) → frame < from
            → frame_slices self.new frame ≡ frame_slices self.old frame) }
        // All frames from this one on have the new slices.
        ensures behind { OnOk result ((frame : ℕ) → from ≤ frame → frame_slices self.new frame ≡ slices.items) }
        ensures err { OnErr result (self.new ≡ self.old) }
    {
        self.reslicings.reserve(1)?;
        let slicing = Slicing::new(alloc, slices)?;
        self.reslicings.push_reserved(Reslicing { from, slicing });
        Ok(())
    }

    /// Returns whether the earliest slice change is from the next frame on, or from one before it.
    fn has_begun(&self) -> bool
        ensures { result ≡ has_begun self.now }
    {
        match self.reslicings.first() {
            Some(reslicing) => u64::from(reslicing.from) <= self.next,
            None => false,
        }
    }

    /// Drops the slices before the earliest slice change, which has begun.
    fn let_go_first(&mut self)
        requires { has_begun self.old ≡ true }
        ensures alike { GoesOnAlike self.old self.new }
        ensures fewer { length self.new.reslicings + 1 ≡ length self.old.reslicings }
    {
        self.slices = self.reslicings.remove(0).slicing;
    }

    /// Drops the slices that no frame to come needs: those of frames whose MAPs are made. What is
    /// left of the slice changes is of later frames than that whose MAP comes next. Takes no
    /// memory.
    pub fn let_go(&mut self)
        // Only slices are dropped that no future frame has.
        ensures alike { GoesOnAlike self.old self.new }
        ensures begun { has_begun self.new ≡ false }
    {
        while self.has_begun() {
            self.let_go_first();
        }
    }
}
