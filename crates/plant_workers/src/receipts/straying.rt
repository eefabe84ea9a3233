//! Receipts that stray.

ghost use Rattle.std.specs.Prelude.{◌≡◌, ◌↔◌, map, length, None, MatchOption, IsTrue};
ghost use Rattle.operator_book.specs.ViewOf.{view_of};
ghost use Rattle.plant_workers.specs.receipts.Merge.{Stands};
ghost use Rattle.plant_workers.specs.receipts.Straying.{lesser, IsLeastOr, IsGreater, IsStray};
ghost use Rattle.plant_workers.specs.receipts.Straying.{StraysBehind, StandBehind, Strays, AllStand};
ghost use Rattle.plant_workers.specs.receipts.Settling.{IsFirstStrayed, EachStands};

use crate::receipts::receipt::{Callers, Receipt, Receipts};
use crate::receipts::same::{are_same_outputs, is_same_action};
use operator_book::{Book, Entry};
use plant::Op;

/// Returns whether the entry at the receipt's index has its action and its outputs.
fn stands(history: &[Entry], receipt: &Receipt) -> bool
    ensures { IsTrue result ↔ Stands history.now receipt.now }
{
    match history.get(receipt.index) {
        Some(entry) => {
            is_same_action(&entry.action, &receipt.action)
                && are_same_outputs(entry.outputs.as_slice(), receipt.outputs.as_slice())
        }
        None => false,
    }
}

/// Returns the lesser of two numbers, or the one that is there.
fn lesser(a: Option<usize>, b: Option<usize>) -> Option<usize>
    ensures { result ≡ lesser a b }
{
    match (a, b) {
        (Some(a), Some(b)) => Some(a.min(b)),
        (Some(a), None) => Some(a),
        (None, b) => b,
    }
}

/// Returns whether an index is greater than that of the receipt before.
fn is_greater(before: Option<usize>, index: usize) -> bool
    ensures { IsTrue result ↔ IsGreater before index }
{
    match before {
        Some(before) => before < index,
        None => true,
    }
}

/// Returns the index of a receipt that strays.
fn stray_index(history: &[Entry], before: Option<usize>, receipt: &Receipt) -> Option<usize>
    ensures { MatchOption result (Stands history.now receipt.now × IsGreater before receipt.now.index)
        (λ index. (receipt.now.index ≡ index) × IsStray history.now before receipt.now) }
{
    if stands(history, receipt) && is_greater(before, receipt.index) {
        None
    } else {
        Some(receipt.index)
    }
}

/// Returns the least index of a caller's receipt that strays.
fn least_of_caller(history: &[Entry], receipts: &[Receipt]) -> Option<usize>
    ensures { IsLeastOr (StraysBehind history.now None receipts.now)
        (StandBehind history.now None receipts.now) result }
{
    let mut least = None;
    let mut before = None;
    for receipt in receipts {
        least = lesser(least, stray_index(history, before, receipt));
        before = Some(receipt.index);
    }
    least
}

/// Returns the least index of a receipt that strays, of all callers of an operator.
fn least_of_callers(history: &[Entry], callers: &[Receipts]) -> Option<usize>
    ensures { IsLeastOr (Strays history.now callers.now) (AllStand history.now callers.now) result }
{
    let mut least = None;
    for receipts in callers {
        least = lesser(least, least_of_caller(history, receipts.as_slice()));
    }
    least
}

/// Returns the first receipt that strays: its operator and its index.
pub(crate) fn first_strayed(books: &[Book], receipts: &[Callers]) -> Option<(Op, usize)>
    requires { length books.now ≡ length receipts.now }
    ensures { MatchOption result (EachStands (map view_of books.now) receipts.now)
        (λ first. IsFirstStrayed (map view_of books.now) receipts.now first.0 first.1) }
{
    for (op, callers) in receipts.iter().enumerate() {
        if let Some(index) = least_of_callers(books[op].history(), callers.as_slice()) {
            return Some((op, index));
        }
    }
    None
}
