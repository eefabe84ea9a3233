//! Opened books and cores.

use grant_policy::Ranking;
use operator_book::Book;
use plant::{Op, Plant};
use plant_core::PlantCore;
use slice_table::read_plant;
use std::alloc::{AllocError, Global};
use test_plants::PLANT;

/// Makes the ranking by traffic priority alone. It is a macro, since a function that hands out a ranking is not proved.
macro_rules! strict {
    ($alloc:expr) => {
        grant_policy::Ranking::new(
            grant_policy::Policy::Strict,
            Box::new($alloc, |input: grant_policy::RankInput| -> u8 {
                grant_policy::rank_by(grant_policy::Policy::Strict, &input)
            })?,
        )
    };
}

pub(crate) use strict;

/// Opens the book of an operator of a plant.
fn book_in(alloc: Global, plant: &Plant, op: Op, ranking: Ranking) -> Option<Book> {
    let row = plant.rows().get(op)?;
    Book::open(alloc, row, plant.consts(), ranking).ok()
}

/// Opens the book of an operator of the plant of operators A and B, after these lines are added to the plant file.
pub(crate) fn book_of(alloc: Global, keys: &str, op: Op, ranking: Ranking) -> Option<Book> {
    let (head, tail) = PLANT.split_once("ucd_count = 1\n")?;
    let text = format!(in alloc; "{head}ucd_count = 1\n{keys}{tail}").ok()?;
    let plant = read_plant(alloc, text.as_str()).ok()?;
    book_in(alloc, &plant, op, ranking)
}

/// Opens the core of the plant of operators A and B with their rankings.
pub(crate) fn core(
    alloc: Global,
    first: Ranking,
    second: Ranking,
) -> Result<Option<PlantCore>, AllocError> {
    let rankings = Vec::from_array(alloc, [first, second])?;
    match read_plant(alloc, PLANT) {
        Ok(plant) => Ok(PlantCore::open(alloc, plant, rankings).ok()),
        Err(_) => Ok(None),
    }
}
