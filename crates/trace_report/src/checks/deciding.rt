//! The first check that holds.

ghost use Rattle.std.specs.Prelude.{◌≡◌, find, Some, IfOk};
ghost use Rattle.std.specs.Option.{option_copied};
ghost use Rattle.operator_model.specs.Verdict.{verdict};
ghost use Rattle.lists.specs.First.{IsFirst};
ghost use Rattle.trace_report.specs.table.Said.{said_by};
ghost use Rattle.trace_report.specs.table.Holding.{CheckApplies};
ghost use Rattle.trace_report.specs.table.Table.{table, IsDecidedBy};
ghost use Rattle.trace_report.specs.checks.Deciding.{test_of};
ghost use Rattle.trace_report.specs.checks.OperatorSnapshot.{AreAsked};

use crate::checks::asking::Use;
use crate::checks::holding::RequestedSets;
use crate::checks::operator_snapshot::OperatorSnapshot;
use crate::table::Check;
use dsx_messages::{Modem, Request};
use std::alloc::{AllocError, Global};

/// The checks in the order of the table (docs/RULES.md), without the last, which always holds.
const CHECKS: [Check; 17] = [
    Check::UnknownClass,
    Check::NoEncoding,
    Check::IdentifiersDiffer,
    Check::NotTogether,
    Check::NoIdentifier,
    Check::UnknownFlow,
    Check::NotOwner,
    Check::FlowWaits,
    Check::WrongSetType,
    Check::NoParameterSet,
    Check::ActiveNotWithin,
    Check::AdmittedNotWithin,
    Check::FlowsFull,
    Check::NoSfidFree,
    Check::NoSidFree,
    Check::ElementsOver,
    Check::MinislotsOver,
];

impl OperatorSnapshot {
    /// Returns the first of these checks that holds.
    fn first_of<'a>(
        &self,
        checks: &'a [Check],
        modem: Modem,
        request: &Request,
        asked: &RequestedSets,
    ) -> Option<&'a Check>
        requires { AreAsked self.now (said_by request.now) asked.now.subjects.items asked.now.admitted.items asked.now.active.items }
        ensures { option_copied result ≡ find (test_of self.now modem (said_by request.now)) checks.now }
    {
        checks
            .iter()
            .find(|check| self.holds(**check, modem, request, asked))
    }

    /// Returns the first check of the table that holds.
    fn first_that_holds(&self, modem: Modem, request: &Request, asked: &RequestedSets) -> Check
        requires { AreAsked self.now (said_by request.now) asked.now.subjects.items asked.now.admitted.items asked.now.active.items }
        ensures { find (test_of self.now modem (said_by request.now)) table ≡ Some result }
    {
        self.first_of(&CHECKS, modem, request, asked)
            .copied()
            .unwrap_or(Check::Accepted)
    }

    /// Returns the check that decides a request of a modem whose transaction is new: the first of
    /// the table that holds of the operator as it exists. Takes memory for what the request names
    /// and asks for.
    pub fn deciding_check(
        &self,
        alloc: Global,
        modem: Modem,
        request: &Request,
    ) -> Result<Check, AllocError>
        // It is the first check of the table that holds.
        ensures first { IfOk result (IsFirst (λ check. CheckApplies check self.now modem (said_by request.now)) table) }
        // The machine's verdict is its answer.
        ensures decides { IfOk result (λ check. IsDecidedBy self.now modem (said_by request.now) check
            (verdict self.now modem request.now)) }
    {
        // For the proof: what always holds of `self`.
        self.always_sound();
        let subjects = self.subjects(alloc, request)?;
        let admitted = self.sets(alloc, Use::Admit, request)?;
        let active = self.sets(alloc, Use::Activate, request)?;
        let asked = RequestedSets {
            subjects,
            admitted,
            active,
        };
        Ok(self.first_that_holds(modem, request, &asked))
    }
}
