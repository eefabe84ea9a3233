//! Giving new slices to all operators of a live core.

ghost use Rattle.std.specs.Prelude.{◌≡◌, [], map, length, vec_len, All, None, IfOk, OnOk, OnErr};
ghost use Rattle.operator_model.specs.declared.action.Action.TheVariants as actions;
ghost use Rattle.operator_model.specs.Machine.{unfit_from};
ghost use Rattle.run_model.specs.OwnSteps.{slice_of};
ghost use Rattle.run_model.specs.Steps.{Reslices, NoneRefuses};
ghost use Rattle.plant_core.specs.live.Reslicing.{reslice_fault};
ghost use Rattle.plant_core.specs.live.Giving.{IsOfASlice, HaveTakenAs};
ghost use Rattle.plant_core.specs.live.DeskView.{slot_book, slot_waiting};
ghost use Rattle.plant_core.specs.live.Performing.{went, Performs};
ghost use Rattle.plant_core.specs.live.LiveView.{live_view};

use crate::live::desk::LiveSlot;
use crate::live::held::LiveCore;
use operator_model::SliceRow;
use slice_scheduler::Slice;
use std::alloc::{AllocError, Global};

impl LiveSlot {
    /// Takes a row from a later frame on. Takes no memory.
    fn reslice(&mut self, from: u32, row: SliceRow)
        requires { unfit_from self.old.live.sound from row ≡ None }
        ensures book { slot_book self.new ≡ went (slot_book self.old) (actions.Reslice from row) }
        ensures waiting { slot_waiting self.new ≡ slot_waiting self.old }
    {
        self.live.reslice(from, row);
    }
}

/// Returns the slices of rows.
fn slices_of(alloc: Global, rows: &[SliceRow]) -> Result<Vec<Slice>, AllocError>
    requires { All IsOfASlice rows.now }
    ensures { IfOk result (λ slices. slices.items ≡ map slice_of rows.now) }
{
    let mut slices = Vec::with_capacity(alloc, rows.len())?;
    for row in rows {
        slices.push(Slice::new(row.start, row.length))?;
    }
    Ok(slices)
}

/// Gives each operator its row of a slice change. Takes no memory.
fn give(desks: &mut Vec<LiveSlot>, from: u32, rows: &[SliceRow])
    requires one_each { length rows.now ≡ vec_len desks.old }
    requires fit { NoneRefuses from (map slot_book desks.old.items) rows.now }
    ensures books { HaveTakenAs (λ book row. went book (actions.Reslice from row)) rows.now
        (map slot_book desks.old.items) (map slot_book desks.new.items) }
    ensures waiting { map slot_waiting desks.new.items ≡ map slot_waiting desks.old.items }
{
    for (op, row) in rows.iter().enumerate() {
        desks[op].reslice(from, *row);
    }
}

impl LiveCore {
    /// Gives each operator its row, and the assembly all slices, from a later frame on. All memory
    /// is taken first. Slices that no frame to come needs are dropped.
    pub fn give(&mut self, alloc: Global, from: u32, rows: &[SliceRow]) -> Result<(), AllocError>
        requires { reslice_fault from (live_view self.old).books rows.now ≡ None }
        ensures ok { OnOk result (Performs (Reslices from rows.now) (live_view self.old) (live_view self.new) []) }
        ensures err { OnErr result (live_view self.new ≡ live_view self.old) }
    {
        // For the proof: what always holds of `self`.
        self.always();
        let slices = slices_of(alloc, rows)?;
        self.gather.reslice(alloc, from, slices)?;
        self.gather.let_go();
        // For the proof: what always holds of `self.gather`.
        self.gather.always();
        give(&mut self.desks, from, rows);
        Ok(())
    }
}
