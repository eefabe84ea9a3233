//! The state that an operator's lock guards.

ghost use Rattle.std.specs.Prelude.{◌≤◌, length};

use operator_book::Book;

/// The state that an operator's lock guards: its book, how many entries of its history are collected,
/// and whether its turns have stopped. The frames of the entries after those wait to be collected.
/// Whenever the lock is taken, the book is the replay of its history: `Book`'s type keeps this.
#[derive(Drop)]
pub struct Held {
    pub book: Book,
    pub collected: usize,
    pub stopped: bool,
    ghost within: { collected ≤ length book.kept.book.history },
}
