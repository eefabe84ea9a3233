//! Entries with no receipt, or more than one.

ghost use Rattle.std.specs.Prelude.{◌≡◌, ◌↔◌, ◌==◌, ℕ, ◌+◌, ◌<◌, min, map, length};
ghost use Rattle.std.specs.Prelude.{slice_index, count_by, MatchOption, IfOk, IsTrue};
ghost use Rattle.operator_book.specs.ViewOf.{view_of};
ghost use Rattle.plant_workers.specs.receipts.Merge.{times};
ghost use Rattle.plant_workers.specs.receipts.Settling.{IsFirstShort, NoneIsShort};

use crate::receipts::receipt::{Callers, Receipt, Receipts};
use operator_book::Book;
use plant::Op;
use std::alloc::{AllocError, Global};

/// Counts the receipts of a caller at their indices, up to 255; an index past the end is not counted.
fn count_receipts(counts: &mut [u8], receipts: &[Receipt])
    ensures { (k : ℕ) → k < length counts.old
        → min (slice_index counts.new k) 255
        ≡ min (slice_index counts.old k + count_by (λ r. r.index == k) receipts.now) 255 }
{
    for receipt in receipts {
        if receipt.index < counts.len() {
            counts[receipt.index] = counts[receipt.index].saturating_add(1);
        }
    }
}

/// Returns whether each of so many entries has just one receipt, by a count of each.
fn are_counted_once(alloc: Global, entries: usize, callers: &[Receipts]) -> Result<bool, AllocError>
    ensures { IfOk result (λ told. IsTrue told ↔ ((k : ℕ) → k < entries → times k callers.now ≡ 1)) }
{
    let mut counts = vec![in alloc; 0u8; entries]?;
    for receipts in callers {
        count_receipts(&mut counts, receipts.as_slice());
    }
    Ok(counts.iter().all(|count| *count == 1))
}

/// Counts the receipts of a caller that have this index.
fn count_at(index: usize, receipts: &[Receipt]) -> usize
    ensures { result ≡ count_by (λ r. r.index == index) receipts.now }
{
    receipts
        .iter()
        .filter(|receipt| receipt.index == index)
        .count()
}

/// Returns whether just one receipt of all callers has this index. Takes no memory.
fn is_told_once(index: usize, callers: &[Receipts]) -> bool
    ensures { IsTrue result ↔ (times index callers.now ≡ 1) }
{
    let mut told = 0;
    for receipts in callers {
        told = (told + count_at(index, receipts.as_slice()).min(2)).min(2);
    }
    told == 1
}

/// Returns whether each of so many entries has just one receipt. Takes no memory, and time in
/// proportion to the entries times the receipts.
fn are_found_once(entries: usize, callers: &[Receipts]) -> bool
    ensures { IsTrue result ↔ ((k : ℕ) → k < entries → times k callers.now ≡ 1) }
{
    for index in 0..entries {
        if !is_told_once(index, callers) {
            return false;
        }
    }
    true
}

/// Returns whether each of so many entries has just one receipt. Where no memory is left for a
/// count of each entry, each is looked for, so that the answer is the same.
fn are_told_once(alloc: Global, entries: usize, callers: &[Receipts]) -> bool
    ensures { IsTrue result ↔ ((k : ℕ) → k < entries → times k callers.now ≡ 1) }
{
    match are_counted_once(alloc, entries, callers) {
        Ok(told) => told,
        Err(_) => are_found_once(entries, callers),
    }
}

/// Finds the first operator of which an entry has no receipt, or more than one.
pub(crate) fn first_short(alloc: Global, books: &[Book], receipts: &[Callers]) -> Option<Op>
    requires { length books.now ≡ length receipts.now }
    ensures { MatchOption result (NoneIsShort (map view_of books.now) receipts.now)
        (IsFirstShort (map view_of books.now) receipts.now) }
{
    for (op, callers) in receipts.iter().enumerate() {
        if !are_told_once(alloc, books[op].history().len(), callers.as_slice()) {
            return Some(op);
        }
    }
    None
}
