//! The plant: what all operators share, and each operator's row.

ghost use Rattle.std.specs.Prelude.{◌≡◌, IfOk};
ghost use Rattle.plant.specs.Plant.{IsPlant};
ghost use Rattle.plant.specs.Roster.{Finds, holder};
ghost use Rattle.plant.specs.declared.operator_row.RowFields.{RowFields};
ghost use Rattle.plant.specs.declared.plant.PlantFields.{PlantFields};

use crate::consts::Consts;
use crate::operator_row::OperatorRow;
use dsx_messages::Modem;
use indexmap::IndexMap;
use lists::Listed;
use std::alloc::{AllocError, Global};
use std::marker::Model;

/// An operator, by its place in the plant, from 0.
pub type Op = usize;

/// The rows of a plant's operators, in the file's order.
pub type Rows = Listed<OperatorRow>;

/// What a plant is made of.
#[derive(Debug, Drop)]
pub struct PlantFields {
    /// What all operators share.
    pub consts: Consts,
    /// Each operator's row, in the file's order.
    pub rows: Rows,
}

/// Returns an equal list with memory of its own.
fn copy_rows(alloc: Global, rows: &[OperatorRow]) -> Result<Rows, AllocError>
    ensures { IfOk result (λ copies. copies ≡ rows.now) }
{
    let mut copies = Vec::with_capacity(alloc, rows.len())?;
    for row in rows {
        copies.push(row.copy(alloc)?)?;
    }
    Ok(Listed::from_vec(copies))
}

/// Returns an equal map with memory of its own.
fn copy_places(places: &IndexMap<Modem, Op>) -> Result<IndexMap<Modem, Op>, AllocError>
    ensures { IfOk result (λ copy. copy.entries ≡ places.now.entries) }
{
    places.clone()
}

/// A valid plant. Contracts see what it is made of. The operator of a modem is found by the modem's address.
#[derive(Debug)]
pub struct Plant {
    fields: PlantFields,
    places: IndexMap<Modem, Op>,
}

/// Written out, so that the crates above prove nothing of how the parts of a plant are dropped.
impl Drop for Plant {
    fn drop(self) {
        let Plant {
            fields: _,
            places: _,
        } = self;
    }
}

impl Model for Plant {
    ghost Value = { PlantFields };

    ghost view = { λ p. p.fields };

    ghost invariant = { λ p. IsPlant p.fields × Finds p.fields.rows p.places };
}

impl Plant {
    /// Returns the plant of these fields, with each operator's modems by their addresses.
    pub fn new(fields: PlantFields, places: IndexMap<Modem, Op>) -> Plant
        requires valid { IsPlant fields }
        requires found { Finds fields.rows places }
        ensures { result ≡ fields }
    {
        Plant { fields, places }
    }

    /// Returns the operator that lists this modem, if one does: at most one does. Takes no memory.
    pub fn operator_of(&self, modem: Modem) -> Option<Op>
        // The holder of the modem: the first operator that lists it, of whom a valid plant has at most one.
        ensures { result ≡ holder self.now.rows modem }
    {
        self.places.get(&modem).copied()
    }

    /// Returns each operator's row, in the file's order, which gives an operator its place.
    pub fn rows(&self) -> &[OperatorRow]
        ensures value { result.now ≡ self.now.rows }
        ensures valid { IsPlant self.now }
    {
        self.fields.rows.as_slice()
    }

    /// Returns what all operators share.
    pub fn consts(&self) -> &Consts
        ensures value { result.now ≡ self.now.consts }
        ensures valid { IsPlant self.now }
    {
        &self.fields.consts
    }

    /// Returns an equal value with memory of its own.
    pub fn copy(&self, alloc: Global) -> Result<Plant, AllocError>
        ensures { IfOk result (λ plant. plant ≡ self.now) }
    {
        Ok(Plant {
            fields: PlantFields {
                consts: self.fields.consts.copy(alloc)?,
                rows: copy_rows(alloc, self.fields.rows.as_slice())?,
            },
            places: copy_places(&self.places)?,
        })
    }
}
