//! A `Vec` that contracts see as its list.

ghost use Rattle.std.specs.Prelude.{◌≡◌, ◌==◌, ◌++◌, ◌∷◌, [], length, IfOk, OnOk, OnErr};

use std::alloc::{AllocError, Global};
use std::marker::Model;

/// Items one after the other. Contracts see their list, so two are equal where their items are,
/// wherever those are in memory.
#[derive(Debug, Drop)]
pub struct Listed<T> {
    items: Vec<T>,
}

impl<T> Model for Listed<T> {
    ghost use Rattle.std.specs.Prelude.{List};

    ghost Value = { List T };

    ghost view = { λ l. l.items.items };
}

impl<T> Listed<T> {
    /// Creates an empty list. Takes no memory.
    pub fn new(alloc: Global) -> Listed<T>
        ensures { result ≡ [] }
    {
        Listed {
            items: Vec::new(alloc),
        }
    }

    /// Makes a list of these items, without a copy.
    pub fn from_vec(items: Vec<T>) -> Listed<T>
        ensures { result ≡ items.items }
    {
        Listed { items }
    }

    /// Gives the items back, without a copy.
    pub fn into_vec(self) -> Vec<T>
        ensures { result.items ≡ self }
    {
        let Listed { items } = self;
        items
    }

    /// Lends the items in place.
    pub fn as_slice(&self) -> &[T]
        ensures { result.now ≡ self.now }
    {
        self.items.as_slice()
    }

    /// Returns the number of items in the list.
    pub fn len(&self) -> usize
        ensures { result ≡ length self.now }
    {
        self.items.len()
    }

    /// Returns whether the list has no items.
    pub fn is_empty(&self) -> bool
        ensures { result ≡ (length self.now == 0) }
    {
        self.items.is_empty()
    }
}

impl<T: Drop> Listed<T> {
    /// Adds an item after the others. If memory runs out the item is lost.
    pub fn push(&mut self, item: T) -> Result<(), AllocError>
        ensures ok { OnOk result (self.new ≡ self.old ++ item ∷ []) }
        // If memory runs out the list is as before.
        ensures err { OnErr result (self.new ≡ self.old) }
    {
        Ok(self.items.push(item)?)
    }
}

impl<T: Copy> Listed<T> {
    /// Makes a list of a copy of each item of a slice.
    pub fn from_slice(alloc: Global, slice: &[T]) -> Result<Listed<T>, AllocError>
        ensures { IfOk result (λ list. list ≡ slice.now) }
    {
        Ok(Listed {
            items: Vec::from_slice(alloc, slice)?,
        })
    }

    /// Makes an equal list with memory of its own.
    pub fn copy(&self, alloc: Global) -> Result<Listed<T>, AllocError>
        ensures { IfOk result (λ copy. copy ≡ self.now) }
    {
        Listed::from_slice(alloc, self.items.as_slice())
    }
}
