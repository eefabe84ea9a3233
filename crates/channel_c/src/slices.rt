//! The rows of a slice change, as C gives them.

ghost use Rattle.std.specs.Prelude.{◌≡◌, map, IfOk};
ghost use Rattle.channel_c.specs.Answers.{row_as};

use operator_model::SliceRow;
use std::alloc::{AllocError, Global};

/// A slice and a budget of an operator, in minislots of a frame.
#[repr(C)]
#[derive(Clone, Copy)]
pub struct SliceBudget {
    /// The first minislot.
    pub start: u16,
    /// How many minislots.
    pub length: u16,
    /// How many of them may be committed.
    pub budget: u16,
}

/// Returns the rows that these are.
pub fn rows_of(alloc: Global, rows: &[SliceBudget]) -> Result<Vec<SliceRow>, AllocError>
    ensures { IfOk result (λ made. made.items ≡ map row_as rows.now) }
{
    let mut made = Vec::with_capacity(alloc, rows.len())?;
    for row in rows {
        made.push(SliceRow {
            start: row.start,
            length: row.length,
            budget: row.budget,
        })?;
    }
    Ok(made)
}
