//! The operators' cells, in the order of the operators.

ghost use Rattle.std.specs.Prelude.{map, IfOk};
ghost use Rattle.std.proofs.Props.{props};
ghost use Rattle.plant_workers.specs.Cells.{AreInOrder};

use crate::cell::OperatorCell;
use crate::cell_state::Held;
use grant_policy::Ranking;
use operator_book::Book;
use plant::Plant;
use std::alloc::{AllocError, Global};

/// The operators' cells. The type keeps that each is at its operator's place.
#[derive(Drop)]
pub(crate) struct Cells {
    cells: Vec<OperatorCell>,
    ghost in_order: { AreInOrder (map (λ cell. cell.op) cells.items) } by { Prim.hlevel props },
}

/// Opens each operator's book, and puts a cell round it.
fn open_each(
    alloc: Global,
    plant: &Plant,
    rankings: Vec<Ranking>,
) -> Result<Vec<OperatorCell>, AllocError>
    ensures { IfOk result (λ cells. AreInOrder (map (λ cell. cell.op) cells.items)) }
{
    let rows = plant.rows();
    let mut cells = Vec::with_capacity(alloc, rankings.len())?;
    for ranking in rankings {
        let Some(row) = rows.get(cells.len()) else {
            return Err(AllocError);
        };
        match Book::open(alloc, row, plant.consts(), ranking) {
            Ok(book) => cells.push(OperatorCell::new(cells.len(), book))?,
            Err(_) => return Err(AllocError),
        }
    }
    Ok(cells)
}

/// Puts a cell round each state, in the order of the operators.
fn hold_each(alloc: Global, helds: Vec<Held>) -> Result<Vec<OperatorCell>, AllocError>
    ensures { IfOk result (λ cells. AreInOrder (map (λ cell. cell.op) cells.items)) }
{
    let mut cells = Vec::with_capacity(alloc, helds.len())?;
    for held in helds {
        let (book, taken) = held.into_parts();
        cells.push(OperatorCell::again(cells.len(), book, taken))?;
    }
    Ok(cells)
}

impl Cells {
    /// Returns the cell of each operator, with nothing done.
    pub(crate) fn open(
        alloc: Global,
        plant: &Plant,
        rankings: Vec<Ranking>,
    ) -> Result<Cells, AllocError> {
        let cells = open_each(alloc, plant, rankings)?;
        Ok(Cells { cells })
    }

    /// Returns the cells round these states, which are in the order of the operators.
    pub(crate) fn again(alloc: Global, helds: Vec<Held>) -> Result<Cells, AllocError> {
        let cells = hold_each(alloc, helds)?;
        Ok(Cells { cells })
    }

    /// Lends the cells, each at its operator's place.
    pub(crate) fn as_slice(&self) -> &[OperatorCell]
        ensures { AreInOrder (map (λ cell. cell.op) result.now) }
    {
        self.cells.as_slice()
    }

    /// Takes the cells apart, each into the state that its lock guards.
    pub(crate) fn into_helds(self, alloc: Global) -> Result<Vec<Held>, AllocError> {
        let Cells { cells } = self;
        let mut helds = Vec::with_capacity(alloc, cells.len())?;
        for cell in cells {
            let (book, taken) = cell.into_parts();
            helds.push(Held::again(book, taken))?;
        }
        Ok(helds)
    }

    /// Takes the cells apart, and returns the books.
    pub(crate) fn into_books(self, alloc: Global) -> Result<Vec<Book>, AllocError> {
        let Cells { cells } = self;
        let mut books = Vec::with_capacity(alloc, cells.len())?;
        for cell in cells {
            let (book, _) = cell.into_parts();
            books.push(book)?;
        }
        Ok(books)
    }
}
