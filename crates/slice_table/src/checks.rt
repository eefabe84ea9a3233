//! What is asked of all keys of a plant file together.

ghost use Rattle.std.specs.Prelude.{◌≡◌, ◌≤◌, length, find, option_map, option_copied};
ghost use Rattle.plant.specs.Plant.{ranges_overlap, most_elements};
ghost use Rattle.slice_table.specs.Checks.{meets, first_meeting, is_over_slice, do_fit, first_named, is_overfull, meeting_fault, elements_fault, budget_fault, provisioned_fault};

use crate::plant_fault::PlantFault;
use admission::IdRange;
use plant::{Consts, OperatorName, OperatorRow};

/// What no two operators may have in common.
#[derive(Clone, Copy)]
pub enum Apart {
    Slices,
    Sids,
    Sfids,
}

/// Returns whether two ranges have a number in common.
fn ranges_overlap(a: &IdRange, b: &IdRange) -> bool
    ensures { result ≡ ranges_overlap a.now b.now }
{
    a.get_first() <= b.get_last() && b.get_first() <= a.get_last()
}

/// Returns the name of an operator's row.
fn name_of(row: &OperatorRow) -> OperatorName
    ensures { result ≡ row.now.name }
{
    row.get_fields().name
}

/// Returns whether two operators have this in common.
fn meets(apart: Apart, row: &OperatorRow, other: &OperatorRow) -> bool
    ensures { result ≡ meets apart row.now other.now }
{
    let (a, b) = (row.get_fields(), other.get_fields());
    match apart {
        Apart::Slices => a.slice.overlaps(&b.slice),
        Apart::Sids => ranges_overlap(&a.sids, &b.sids),
        Apart::Sfids => ranges_overlap(&a.sfids, &b.sfids),
    }
}

/// Returns whether an operator's budget is more than its slice.
fn is_over_slice(row: &OperatorRow) -> bool
    ensures { result ≡ is_over_slice row.now }
{
    let fields = row.get_fields();
    fields.slice.get_length() < fields.budget
}

/// Returns the first operator that has this in common with one.
fn first_met<'a>(
    apart: Apart,
    row: &OperatorRow,
    others: &'a [OperatorRow],
) -> Option<&'a OperatorRow>
    ensures { option_copied result ≡ find (meets apart row.now) others.now }
{
    others.iter().find(|other| meets(apart, row, other))
}

/// Returns the names of the first two operators that have this in common.
#[tactic(auto, unfolding(crate::specs::Checks::first_meeting))]
fn first_meeting(apart: Apart, rows: &[OperatorRow]) -> Option<(OperatorName, OperatorName)>
    ensures { result ≡ first_meeting apart rows.now }
{
    for (place, row) in rows.iter().enumerate() {
        if let Some(other) = first_met(apart, row, &rows[place + 1..]) {
            return Some((name_of(row), name_of(other)));
        }
    }
    None
}

/// Returns the first of the faults that two operators have something in common.
#[tactic(auto, unfolding(crate::specs::Checks::meeting_fault))]
pub(crate) fn meeting_fault(rows: &[OperatorRow]) -> Option<PlantFault>
    ensures { result ≡ meeting_fault rows.now }
{
    if let Some((a, b)) = first_meeting(Apart::Slices, rows) {
        return Some(PlantFault::SlicesMeet { a, b });
    }
    if let Some((a, b)) = first_meeting(Apart::Sids, rows) {
        return Some(PlantFault::SidsMeet { a, b });
    }
    let (a, b) = first_meeting(Apart::Sfids, rows)?;
    Some(PlantFault::SfidsMeet { a, b })
}

/// Returns the most elements that a MAP can need.
fn most_elements(rows: &[OperatorRow]) -> usize
    requires { length rows.now ≤ 32 }
    ensures { result ≡ most_elements rows.now }
{
    let mut quotas = 0;
    for row in rows {
        quotas += usize::from(row.get_fields().elements);
    }
    quotas + 2 * rows.len() + 3
}

/// Returns the fault that a MAP could need more than 240 elements.
#[tactic(auto, unfolding(crate::specs::Checks::elements_fault))]
pub(crate) fn elements_fault(rows: &[OperatorRow]) -> Option<PlantFault>
    requires { length rows.now ≤ 32 }
    ensures { result ≡ elements_fault rows.now }
{
    let total = most_elements(rows);
    if total <= 240 {
        None
    } else {
        Some(PlantFault::TooManyElements { total })
    }
}

/// Returns the first operator whose budget is more than its slice.
fn first_over_slice(rows: &[OperatorRow]) -> Option<&OperatorRow>
    ensures { option_copied result ≡ find is_over_slice rows.now }
{
    rows.iter().find(|row| is_over_slice(row))
}

/// Returns the fault that a budget is more than its slice.
#[tactic(auto, unfolding(crate::specs::Checks::budget_fault))]
pub(crate) fn budget_fault(rows: &[OperatorRow]) -> Option<PlantFault>
    ensures { result ≡ budget_fault rows.now }
{
    match first_over_slice(rows) {
        Some(row) => Some(PlantFault::BudgetOverSlice {
            operator: name_of(row),
        }),
        None => None,
    }
}
