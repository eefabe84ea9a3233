//! Judging new slices for all operators of a live core.

ghost use Rattle.std.specs.Prelude.{◌≡◌, ◌≤◌, [], length, vec_len, drop, option_map, Some, OnOk, OnErr};
ghost use Rattle.std.specs.List.{position_from};
ghost use Rattle.operator_model.specs.Machine.{unfit_from};
ghost use Rattle.run_model.specs.Steps.{Reslices};
ghost use Rattle.plant_core.specs.declared.live.core_fault.CoreFault.TheVariants as faults;
ghost use Rattle.plant_core.specs.live.Faults.{IsReported};
ghost use Rattle.plant_core.specs.live.Reslicing.{is_unfit, least_unfit, do_meet, least_meeting, first_fault, row_fault, reslice_fault};
ghost use Rattle.plant_core.specs.live.Performing.{Performs};
ghost use Rattle.plant_core.specs.live.LiveView.{live_view};

use crate::live::core_fault::{CoreFault, ResliceFault, Unfits};
use crate::live::desk::LiveSlot;
use crate::live::held::LiveCore;
use operator_model::{SliceRow, Unfit};
use plant::Op;
use std::alloc::Global;

/// Returns whether two faults are the same.
pub fn is_same(a: Unfit, b: Unfit) -> bool
    ensures { result ≡ is_unfit a (Some b) }
{
    a == b
}

/// Returns whether the slices of two rows have a minislot in common.
fn do_meet(a: &SliceRow, b: &SliceRow) -> bool
    ensures { result ≡ do_meet a.now b.now }
{
    u32::from(a.start) < u32::from(b.start) + u32::from(b.length)
        && u32::from(b.start) < u32::from(a.start) + u32::from(a.length)
}

/// Returns the first operator from a place on whose slice has a minislot in common with this row's.
fn first_met(row: &SliceRow, rows: &[SliceRow], from: usize) -> Option<Op>
    requires { from ≤ length rows.now }
    ensures { result ≡ position_from (do_meet row.now) from (drop from rows.now) }
{
    for op in from..rows.len() {
        if do_meet(row, &rows[op]) {
            return Some(op);
        }
    }
    None
}

/// Returns the least pair of operators whose slices have a minislot in common: the least first one,
/// and the least second one of it.
pub fn least_meeting(rows: &[SliceRow]) -> Option<(Op, Op)>
    ensures { result ≡ least_meeting 0 rows.now }
{
    for (a, row) in rows.iter().enumerate() {
        if let Some(b) = first_met(row, rows, a + 1) {
            return Some((a, b));
        }
    }
    None
}

/// Returns the first fault of rows, one for each operator, of which the machines refuse these: the
/// order in which faults are reported.
pub fn first_fault(least: Unfits, rows: &[SliceRow]) -> Option<ResliceFault>
    ensures { result ≡ first_fault least (least_meeting 0 rows.now) }
{
    if let Some(op) = least.not_past {
        return Some(ResliceFault::NotPast { op });
    }
    if let Some(op) = least.unfinished {
        return Some(ResliceFault::Unfinished { op });
    }
    if let Some(op) = least.off_frame {
        return Some(ResliceFault::OffFrame { op });
    }
    if let Some((a, b)) = least_meeting(rows) {
        return Some(ResliceFault::SlicesMeet { a, b });
    }
    if let Some(op) = least.budget_over_slice {
        return Some(ResliceFault::BudgetOverSlice { op });
    }
    let op = least.over_budget?;
    Some(ResliceFault::Unfit { op })
}

impl LiveSlot {
    /// Returns whether the machine refuses a row from a frame on with this fault. Takes no memory.
    fn refuses(&self, from: u32, row: SliceRow, unfit: Unfit) -> bool
        ensures { result ≡ is_unfit unfit (unfit_from self.now.live.sound from row) }
    {
        match self.live.offer(from, row) {
            Ok(()) => false,
            Err(found) => is_same(unfit, found),
        }
    }
}

impl LiveCore {
    /// Returns the least operator whose machine refuses its row with this fault.
    fn least_unfit(&self, from: u32, rows: &[SliceRow], unfit: Unfit) -> Option<Op>
        requires { length rows.now ≡ vec_len self.now.desks }
        ensures { result ≡ least_unfit unfit from 0 (live_view self.now).books rows.now }
    {
        for (op, row) in rows.iter().enumerate() {
            if self.desks[op].refuses(from, *row, unfit) {
                return Some(op);
            }
        }
        None
    }

    /// Returns the first fault of new slices, where there is one row for each operator.
    fn row_fault(&self, from: u32, rows: &[SliceRow]) -> Option<ResliceFault>
        requires { length rows.now ≡ vec_len self.now.desks }
        ensures { result ≡ row_fault from (live_view self.now).books rows.now }
    {
        let least = Unfits {
            not_past: self.least_unfit(from, rows, Unfit::NotPast),
            unfinished: self.least_unfit(from, rows, Unfit::Unfinished),
            off_frame: self.least_unfit(from, rows, Unfit::OffFrame),
            budget_over_slice: self.least_unfit(from, rows, Unfit::BudgetOverSlice),
            over_budget: self.least_unfit(from, rows, Unfit::OverBudget),
        };
        first_fault(least, rows)
    }

    /// Returns the first fault of new slices.
    pub fn reslice_fault(&self, from: u32, rows: &[SliceRow]) -> Option<ResliceFault>
        // Each fault comes exactly in its case, fault by fault over all operators.
        ensures { result ≡ reslice_fault from (live_view self.now).books rows.now }
    {
        if rows.len() != self.desks.len() {
            return Some(ResliceFault::Count);
        }
        self.row_fault(from, rows)
    }

    /// Gives all operators new slices from a later frame on, if these have no fault.
    pub(crate) fn reslice(
        &mut self,
        alloc: Global,
        from: u32,
        rows: &[SliceRow],
    ) -> Result<(), CoreFault>
        ensures ok { OnOk result (Performs (Reslices from rows.now) (live_view self.old) (live_view self.new) []) }
        ensures err { OnErr result (live_view self.new ≡ live_view self.old) }
        ensures fault { IsReported result (option_map
            (λ fault. faults.Reslice fault) (reslice_fault from (live_view self.old).books rows.now)) }
    {
        if let Some(fault) = self.reslice_fault(from, rows) {
            return Err(CoreFault::Reslice(fault));
        }
        match self.give(alloc, from, rows) {
            Ok(()) => Ok(()),
            Err(_) => Err(CoreFault::NoMemory),
        }
    }
}
