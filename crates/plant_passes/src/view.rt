//! What the proofs say of a cell. No value of `Origin`, `MarkedEntry` or `Knowledge` is made.

use operator_book::{Entry, RecordedMachine};
use plant::{Consts, OperatorRow};
use std::collections::LinkedList;
use std::snapshot::Snapshot;

/// The constants and the row that a book was opened with.
pub struct Origin {
    pub consts: Consts,
    pub row: OperatorRow,
}

/// An entry, and the number of the pass that made it, or 0 for the book's own past.
pub struct MarkedEntry {
    pub entry: Entry,
    pub by: u64,
}

/// The knowledge of one seat of a cell's table. A seat is a pass, the opener that gives the passes,
/// or a copy of what a pass has seen.
pub struct Knowledge<X> {
    /// The number of the pass, from 1 on, or 0 for any other seat.
    pub number: u64,
    /// How many passes it counts for: 1 for a pass, and more once others are joined to it.
    pub passes: u64,
    /// Whether it is the seat that gives the passes.
    pub opens: bool,
    /// Whether it has found the cell closed.
    pub closed: bool,
    /// Whether a refused turn of its own has closed the cell.
    pub ended_cell: bool,
    /// What the book was opened with.
    pub origin: Origin,
    /// The history that it has seen.
    pub seen: LinkedList<MarkedEntry>,
    /// The histories that other seats have reported to it.
    pub reported: LinkedList<LinkedList<MarkedEntry>>,
    /// The places of the pass's own entries.
    pub made: LinkedList<u64>,
    /// The ticket that it has drawn and not yet used.
    pub ticket: Option<u64>,
    /// Whether it is its turn, and it has the book.
    pub holds_book: bool,
    /// The ranking of the book. The rule knows of it only that it stays the same.
    pub ranking: Option<X>,
}

/// The parts of a book, as a cell's slot holds them: the machine with its history, and the ranking,
/// of which the rule of a cell sees nothing.
#[derive(Drop)]
pub struct BookParts<X> {
    pub kept: RecordedMachine,
    pub ranking: X,
}

/// The key of a cell, which its rule reads: the book that it was opened with, and how many passes
/// there are.
#[derive(Drop)]
pub struct CellKey<X> {
    pub book: Snapshot<BookParts<X>>,
    pub passes: usize,
}
