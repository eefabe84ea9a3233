//! A cell, as it is opened.

use dsx_messages::Modem;
use grant_policy::Ranking;
use operator_book::Book;
use plant::Plant;
use plant_workers::OperatorCell;
use slice_table::read_plant;
use std::alloc::Global;
use test_plants::ALONE;

/// The ranking by traffic priority alone. A function that hands out a ranking is not proved, so each makes its own.
macro_rules! strict {
    ($alloc:expr) => {
        grant_policy::Ranking::new(
            grant_policy::Policy::Strict,
            Box::new($alloc, |input: grant_policy::RankInput| -> u8 {
                grant_policy::rank_by(grant_policy::Policy::Strict, &input)
            })?,
        )
    };
}

pub(crate) use strict;

/// Returns the modem whose address ends with this byte.
pub(crate) fn modem(last: u8) -> Modem {
    Modem([2, 0, 0, 0, 0, last])
}

/// Returns the cell of a plant's first operator with nothing done.
fn first_opened(alloc: Global, plant: &Plant, ranking: Ranking) -> Option<OperatorCell> {
    let row = plant.rows().get(0)?;
    match Book::open(alloc, row, plant.consts(), ranking) {
        Ok(book) => Some(OperatorCell::new(0, book)),
        Err(_) => None,
    }
}

/// Returns the cell of operator A with nothing done.
pub(crate) fn opened_cell(alloc: Global, ranking: Ranking) -> Option<OperatorCell> {
    match read_plant(alloc, ALONE) {
        Ok(plant) => first_opened(alloc, &plant, ranking),
        Err(_) => None,
    }
}
