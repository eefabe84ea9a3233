//! Giving new slices to all operators, and recording them.

ghost use Rattle.std.specs.Prelude.{◌≡◌, ◌<◌, [], map, length, vec_len, All, option_map, None, OnOk, OnErr};
ghost use Rattle.run_model.specs.Steps.{Reslices};
ghost use Rattle.plant_core.specs.declared.live.core_fault.CoreFault.TheVariants as faults;
ghost use Rattle.plant_core.specs.live.Faults.{IsReported};
ghost use Rattle.plant_core.specs.live.Reslicing.{reslice_fault};
ghost use Rattle.plant_core.specs.Recorded.{histories_after_reslice};
ghost use Rattle.plant_core.specs.RecordView.{record_view};

use crate::live::CoreFault;
use crate::recorded::RecordedCore;
use crate::slice_change::SliceChange;
use operator_book::History;
use operator_model::{Action, Entry, Outputs, SliceRow};
use run_model::SliceRows;
use std::alloc::{AllocError, Global};

/// Makes room for one more entry in each history.
fn make_room(histories: &mut Vec<History>) -> Result<(), AllocError>
    ensures room { OnOk result (All (λ history. 0 < history.spare) histories.new.items) }
    ensures entries { map (λ history. history.entries) histories.new.items ≡ map (λ history. history.entries) histories.old.items }
{
    for op in 0..histories.len() {
        histories[op].make_room()?;
    }
    Ok(())
}

/// Puts into each history the entry of its row of a slice change. Takes no memory.
fn record_rows(histories: &mut Vec<History>, from: u32, rows: &[SliceRow])
    requires one_each { length rows.now ≡ vec_len histories.old }
    requires room { All (λ history. 0 < history.spare) histories.old.items }
    ensures { map (λ history. history.entries) histories.new.items
        ≡ histories_after_reslice from rows.now (map (λ history. history.entries) histories.old.items) }
{
    for (op, row) in rows.iter().enumerate() {
        let history = &mut histories[op];
        let outputs = Outputs::new(history.allocator());
        history.push(Entry {
            action: Action::Reslice { from, row: *row },
            outputs,
        });
    }
}

impl RecordedCore {
    /// Gives each operator its row, and the assembly all slices, from a later frame on, and records them. All memory is taken
    /// first.
    fn give(&mut self, alloc: Global, from: u32, rows: &SliceRows) -> Result<(), AllocError>
        requires { reslice_fault from (record_view self.old).books rows.now ≡ None }
        ensures ok { OnOk result (Reslices from rows.now (record_view self.old) (record_view self.new) []) }
        ensures err { OnErr result (record_view self.new ≡ record_view self.old) }
    {
        // For the proof: what always holds of `self.live`.
        self.live.always();
        let copy = rows.copy(alloc)?;
        self.changes.reserve(1)?;
        make_room(&mut self.histories)?;
        let given = rows.as_slice();
        self.live.give(alloc, from, given)?;
        record_rows(&mut self.histories, from, given);
        self.changes.push_reserved(SliceChange { from, rows: copy });
        Ok(())
    }

    /// Gives all operators new slices from a later frame on, if these have no fault.
    pub(crate) fn reslice(
        &mut self,
        alloc: Global,
        from: u32,
        rows: &SliceRows,
    ) -> Result<(), CoreFault>
        ensures ok { OnOk result (Reslices from rows.now (record_view self.old) (record_view self.new) []) }
        ensures err { OnErr result (record_view self.new ≡ record_view self.old) }
        ensures fault { IsReported result (option_map
            (λ fault. faults.Reslice fault) (reslice_fault from (record_view self.old).books rows.now)) }
    {
        // For the proof: what always holds of `self.live`.
        self.live.always();
        if let Some(fault) = self.live.reslice_fault(from, rows.as_slice()) {
            return Err(CoreFault::Reslice(fault));
        }
        match self.give(alloc, from, rows) {
            Ok(()) => Ok(()),
            Err(AllocError) => Err(CoreFault::NoMemory),
        }
    }
}
