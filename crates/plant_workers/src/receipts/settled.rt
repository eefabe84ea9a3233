//! What is settled.

use crate::receipts::receipt::Callers;
use map_assembly::MapBytes;
use operator_book::Book;

/// The books, the receipts of their callers and the MAPs of a run, settled with one another.
#[derive(Drop)]
pub struct Settled {
    /// Operator by operator.
    pub books: Vec<Book>,
    /// Operator by operator, and caller by caller.
    pub receipts: Vec<Callers>,
    pub maps: Vec<MapBytes>,
}
