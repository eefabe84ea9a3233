//! The assembly that the workers of a plant share.

ghost use Rattle.std.specs.Prelude.{◌≡◌, ◌≢◌, ◌↔◌, [], ◌∷◌, ◌++◌, map, All, IsTrue, Option, Some, Result, Ok, Err, IfOk, OnOk, OnErr, ◌<◌, length, vec_len, vec_capacity, true, false};
ghost use Rattle.slice_scheduler.specs.Minislots.{IsSlice};
ghost use Rattle.plant.specs.Plant.{IsPlant};
ghost use Rattle.plant.specs.declared.plant.PlantFields.{PlantFields};
ghost use Rattle.operator_model.specs.declared.action.SliceRow.{SliceRow};
ghost use Rattle.map_assembly.specs.declared.map_bytes.MapBytes.{MapBytes};
ghost use Rattle.map_assembly.specs.declared.refused.GatherFault.{GatherFault};
ghost use Rattle.map_assembly.specs.declared.refused.GatherFault.TheVariants.{NoMemory};
ghost use Rattle.map_assembly.specs.Gathering.{gathering_of, put_fault, MayReslice, IsGathering};
ghost use Rattle.run_model.specs.OwnSteps.{slice_of};
ghost use Rattle.plant_workers.specs.audit.Placings.{new_assembly, map_if_made, HasPut, HasResliced, HaveMade};

use crate::audit::placing::Placing;
use map_assembly::{Gather, GatherFault, MapBytes};
use operator_model::SliceRow;
use plant::{Op, Plant};
use run_model::SliceRows;
use slice_scheduler::{Elements, Slice};
use std::alloc::{AllocError, Global};
use std::marker::Model;

/// The assembly that the workers of a plant share: the plant, what is gathered, all that was placed in it, in order,
/// and the MAPs that it gave. Contracts see these four. The type keeps that the MAPs are what the placings give, one
/// after the other, on a new assembly of that plant.
#[derive(Drop)]
pub struct Assembly {
    plant: Plant,
    gather: Gather,
    placings: Vec<Placing>,
    maps: Vec<MapBytes>,
}

impl Model for Assembly {
    ghost use Rattle.map_assembly.specs.Gathering.{gathering_of};
    ghost use Rattle.plant_workers.specs.audit.Placings.{AssemblyView, HaveMade};

    ghost Value = { AssemblyView };

    ghost view = { λ a. record {
      plant = a.plant;
      gathering = a.gather;
      placings = a.placings.items;
      maps = a.maps.items;
    } };

    ghost invariant = { λ a. HaveMade (gathering_of a.plant) a.placings.items a.maps.items a.gather };
}

/// The most slices that can be given: each is of an operator that takes two elements at least of the 240 of a MAP.
const MOST_SLICES: usize = 120;

/// Returns whether a row's slice is one: it has a minislot, and none past the 4,096 of a frame.
fn is_slice(row: SliceRow) -> bool
    ensures { IsTrue result ↔ IsSlice (slice_of row) }
{
    1 <= row.length && u32::from(row.start) + u32::from(row.length) <= 4096
}

/// Returns whether each row's slice is one.
fn are_slices(rows: &[SliceRow]) -> bool
    ensures { IsTrue result ↔ All (λ row. IsSlice (slice_of row)) rows.now }
{
    rows.iter().all(|row| is_slice(*row))
}

/// Returns the slices of rows.
fn slices_of(alloc: Global, rows: &[SliceRow]) -> Result<Vec<Slice>, AllocError>
    requires { All (λ row. IsSlice (slice_of row)) rows.now }
    ensures { IfOk result (λ slices. slices.items ≡ map slice_of rows.now) }
{
    let mut slices = Vec::with_capacity(alloc, rows.len())?;
    for row in rows {
        slices.push(Slice::new(row.start, row.length))?;
    }
    Ok(slices)
}

/// Writes the slices of rows into as many places.
fn write_slices(slices: &mut [Slice], rows: &[SliceRow])
    requires each { All (λ row. IsSlice (slice_of row)) rows.now }
    requires one_each { length slices.old ≡ length rows.now }
    ensures { slices.new ≡ map slice_of rows.now }
{
    for (op, row) in rows.iter().enumerate() {
        slices[op] = Slice::new(row.start, row.length);
    }
}

/// Returns whether new slices may be given from a frame on. Takes no memory.
fn may_reslice(gather: &Gather, from: u32, rows: &[SliceRow]) -> bool
    ensures { IsTrue result ↔ MayReslice gather.now from (map slice_of rows.now) }
{
    // For the proof: what always holds of the gathering.
    gather.always();
    if rows.len() > MOST_SLICES {
        return false;
    }
    if !are_slices(rows) {
        return false;
    }
    let mut slices = [Slice::new(0, 1); MOST_SLICES];
    let slices = &mut slices[..rows.len()];
    write_slices(slices, rows);
    gather.may_reslice(from, slices)
}

/// Makes room for one more placing and one more MAP.
fn make_room(placings: &mut Vec<Placing>, maps: &mut Vec<MapBytes>) -> Result<(), AllocError>
    ensures placings { placings.new.items ≡ placings.old.items }
    ensures maps { maps.new.items ≡ maps.old.items }
    ensures for_placing { OnOk result (vec_len placings.new < vec_capacity placings.new) }
    ensures for_map { OnOk result (vec_len maps.new < vec_capacity maps.new) }
{
    placings.reserve(1)?;
    maps.reserve(1)
}

/// Notes what was placed, in the room that is there.
fn note(placings: &mut Vec<Placing>, placing: Placing)
    requires { vec_len placings.old < vec_capacity placings.old }
    ensures { placings.new.items ≡ placings.old.items ++ placing ∷ [] }
{
    placings.push_reserved(placing);
}

/// Keeps the MAP that a part gave, if it gave one, in the room that is there.
fn note_map(maps: &mut Vec<MapBytes>, made: Option<MapBytes>)
    requires { vec_len maps.old < vec_capacity maps.old }
    ensures { maps.new.items ≡ maps.old.items ++ map_if_made made }
{
    if let Some(map) = made {
        maps.push_reserved(map);
    }
}

/// Puts an operator's part of a frame, of which `kept` is a copy, and keeps the MAP where it is the last one of its frame.
/// Room is there for what is kept.
///
/// Faults: those of `Gather::put`, out of memory only where it refuses nothing. Nothing has changed then.
fn put_kept(
    alloc: Global,
    gather: &mut Gather,
    placings: &mut Vec<Placing>,
    maps: &mut Vec<MapBytes>,
    op: Op,
    frame: u32,
    elements: Elements,
    kept: Elements,
) -> Result<(), GatherFault>
    requires copied { kept ≡ elements }
    requires for_placing { vec_len placings.old < vec_capacity placings.old }
    requires for_map { vec_len maps.old < vec_capacity maps.old }
    ensures ok { (plant : PlantFields) → OnOk result (HasPut op frame elements
        (record { plant = plant; gathering = gather.old; placings = placings.old.items; maps = maps.old.items })
        (record { plant = plant; gathering = gather.new; placings = placings.new.items; maps = maps.new.items })) }
    ensures fault { (fault : GatherFault) → fault ≢ NoMemory
        → (result ≡ Err fault) ↔ (put_fault gather.old op frame elements ≡ Some fault) }
    // Once the copy is made, no refusal is reported as out of memory.
    ensures memory { result ≡ Err NoMemory → put_fault gather.old op frame elements ≡ None }
    ensures gather { OnErr result (gather.new ≡ gather.old) }
    ensures placings { OnErr result (placings.new.items ≡ placings.old.items) }
    ensures maps { OnErr result (maps.new.items ≡ maps.old.items) }
{
    match gather.put(alloc, op, frame, elements) {
        Ok(made) => {
            let elements = kept;
            note(
                placings,
                Placing::Put {
                    op,
                    frame,
                    elements,
                },
            );
            note_map(maps, made);
            Ok(())
        }
        Err(refused) => Err(refused.fault),
    }
}

impl Assembly {
    /// Returns the assembly of a plant in which nothing is placed.
    pub fn new(alloc: Global, plant: &Plant) -> Result<Assembly, AllocError>
        ensures { IfOk result (λ made. made ≡ new_assembly plant.now) }
    {
        let plant = plant.copy(alloc)?;
        let gather = Gather::new(alloc, &plant)?;
        Ok(Assembly {
            plant,
            gather,
            placings: Vec::new(alloc),
            maps: Vec::new(alloc),
        })
    }

    /// Puts an operator's part of a frame, and keeps the MAP where it is the last one of its frame. All memory is taken
    /// first.
    ///
    /// Faults: those of `Gather::put`. Nothing has changed then, and the elements are dropped.
    pub fn put_part(
        &mut self,
        alloc: Global,
        op: Op,
        frame: u32,
        elements: Elements,
    ) -> Result<(), GatherFault>
        ensures ok { OnOk result (HasPut op frame elements self.old self.new) }
        // Each refusal is one of the assembly. The part is copied first, so memory may run out where the assembly would
        // refuse it.
        ensures fault { (fault : GatherFault) → fault ≢ NoMemory → result ≡ Err fault
            → put_fault self.old.gathering op frame elements ≡ Some fault }
        ensures err { OnErr result (self.new ≡ self.old) }
    {
        let Ok(kept) = elements.copy(alloc) else {
            return Err(GatherFault::NoMemory);
        };
        // For the proof: what always holds of the gathering, before it changes.
        self.gather.always();
        if make_room(&mut self.placings, &mut self.maps).is_err() {
            return Err(GatherFault::NoMemory);
        }
        let (gather, placings, maps) = (&mut self.gather, &mut self.placings, &mut self.maps);
        put_kept(alloc, gather, placings, maps, op, frame, elements, kept)
    }

    /// Gives the operators new slices from a frame on, where `Gather::may_reslice` allows it; false
    /// where not, and nothing has changed then.
    pub fn reslice(
        &mut self,
        alloc: Global,
        from: u32,
        rows: &[SliceRow],
    ) -> Result<bool, AllocError>
        ensures given { result ≡ Ok true → HasResliced from rows.now self.old self.new }
        // Slices are refused exactly if they may not be given, even without memory.
        ensures refused { (result ≡ Ok false) ↔ (MayReslice self.old.gathering from (map slice_of rows.now) → ⊥) }
        ensures memory { OnErr result (MayReslice self.old.gathering from (map slice_of rows.now)) }
        ensures same { result ≡ Ok false → self.new ≡ self.old }
        ensures err { OnErr result (self.new ≡ self.old) }
    {
        // For the proof: what always holds of the gathering, before it changes.
        self.gather.always();
        if !may_reslice(&self.gather, from, rows) {
            return Ok(false);
        }
        let slices = slices_of(alloc, rows)?;
        let kept = SliceRows::from_vec(Vec::from_slice(alloc, rows)?);
        self.placings.reserve(1)?;
        self.gather.reslice(alloc, from, slices)?;
        note(&mut self.placings, Placing::Reslice { from, rows: kept });
        Ok(true)
    }

    /// Returns the plant that was opened.
    pub fn plant(&self) -> &Plant
        ensures { result.now ≡ self.now.plant }
    {
        &self.plant
    }

    /// Returns all that was placed, in order.
    pub fn placings(&self) -> &[Placing]
        ensures { result.now ≡ self.now.placings }
    {
        self.placings.as_slice()
    }

    /// Returns the MAPs, in the order in which they were made.
    pub fn maps(&self) -> &[MapBytes]
        ensures { result.now ≡ self.now.maps }
    {
        self.maps.as_slice()
    }

    /// Returns the MAPs, in the order in which they were made, without a copy.
    pub fn into_maps(self) -> Vec<MapBytes>
        ensures { result.items ≡ self.maps }
    {
        let Assembly {
            plant: _,
            gather: _,
            placings: _,
            maps,
        } = self;
        maps
    }

    /// States what always holds, for a caller's proof. Does nothing.
    pub fn always(&self)
        ensures plant { IsPlant self.now.plant }
        ensures gathering { IsGathering self.now.gathering }
        ensures made { HaveMade (gathering_of self.now.plant) self.now.placings self.now.maps self.now.gathering }
    {
        // For the proof: the plant is valid, and what always holds of the gathering.
        let _ = self.plant.rows();
        self.gather.always();
    }
}
