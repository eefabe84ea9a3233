//! The rule of a cell, and what each kind of step shows.
use crate::view::{BookParts, CellKey, Knowledge};
use atomic_table::{Join, Play, Split, TableRule};

/// The rule of a cell's table.
pub struct CellRule;

impl<X> TableRule<Option<BookParts<X>>, Knowledge<X>, CellKey<X>> for CellRule {
    ghost use Rattle.plant_passes.specs.Rule.{IsCellTable, opening_of};
    ghost use Rattle.plant_passes.specs.Seats.{opener};

    ghost holds = { λ key table. IsCellTable (opening_of key.book.value key.passes) table };

    ghost first = { λ key. opener key.book.value key.passes };
}

/// The step that draws a ticket.
pub(crate) struct DrawStep;

impl<X> Play<Option<BookParts<X>>, Knowledge<X>> for DrawStep {
    ghost use Rattle.plant_passes.specs.Steps.{DrawsTicket};

    ghost then = { DrawsTicket };
}

/// The step that looks at the serving word, and takes the book in the seat's turn.
pub(crate) struct LookStep;

impl<X> Play<Option<BookParts<X>>, Knowledge<X>> for LookStep {
    ghost use Rattle.plant_passes.specs.Steps.{LooksAtServing};

    ghost then = { LooksAtServing };
}

/// The step that ends a turn with an entry.
pub(crate) struct AdvanceStep;

impl<X> Play<Option<BookParts<X>>, Knowledge<X>> for AdvanceStep {
    ghost use Rattle.plant_passes.specs.Steps.{EndsTurn};

    ghost then = { EndsTurn };
}

/// The step that ends a turn with a refusal, and closes the cell.
pub(crate) struct CloseStep;

impl<X> Play<Option<BookParts<X>>, Knowledge<X>> for CloseStep {
    ghost use Rattle.plant_passes.specs.Steps.{ClosesCell};

    ghost then = { ClosesCell };
}

/// The step in which the opener gives a pass.
pub(crate) struct GiveStep;

impl<X> Split<Knowledge<X>> for GiveStep {
    ghost use Rattle.plant_passes.specs.Seats.{after_giving, new_pass};

    ghost left = { after_giving };

    ghost right = { new_pass };
}

/// The step in which a pass shows what it has seen.
pub(crate) struct CopyStep;

impl<X> Split<Knowledge<X>> for CopyStep {
    ghost use Rattle.plant_passes.specs.Seats.{copy_of};

    ghost left = { λ known. known };

    ghost right = { copy_of };
}

/// The step that joins another seat to a pass.
pub(crate) struct JoinStep;

impl<X> Join<Knowledge<X>> for JoinStep {
    ghost use Rattle.plant_passes.specs.Seats.{joint, no_pass};

    ghost both = { joint };

    ghost spent = { no_pass };
}
