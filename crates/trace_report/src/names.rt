//! The names of checks.

ghost use Rattle.std.specs.Prelude.{◌≡◌};
ghost use Rattle.trace_report.specs.Names.{message_check_name, check_name};

use crate::table::{Check, MessageCheck};

pub(crate) fn message_check_name(check: MessageCheck) -> &'static str
    ensures { result.now ≡ message_check_name check }
{
    match check {
        MessageCheck::Unread => "unread",
        MessageCheck::OfCmts => "transaction of the CMTS",
        MessageCheck::Repeated => "repeated",
        MessageCheck::KeptFull => "transactions full",
        MessageCheck::Faulty => "faulty",
        MessageCheck::Judged => "judged",
    }
}

pub(crate) fn check_name(check: Check) -> &'static str
    ensures { result.now ≡ check_name check }
{
    match check {
        Check::UnknownClass => "unknown class",
        Check::NoEncoding => "no encoding",
        Check::IdentifiersDiffer => "identifiers differ",
        Check::NotTogether => "not together",
        Check::NoIdentifier => "no identifier",
        Check::UnknownFlow => "unknown flow",
        Check::NotOwner => "not owner",
        Check::FlowWaits => "flow waits",
        Check::WrongSetType => "wrong set type",
        Check::NoParameterSet => "no parameter set",
        Check::ActiveNotWithin => "active not within admitted",
        Check::AdmittedNotWithin => "admitted not within provisioned",
        Check::FlowsFull => "flows full",
        Check::NoSfidFree => "no SFID free",
        Check::NoSidFree => "no SID free",
        Check::ElementsOver => "elements over",
        Check::MinislotsOver => "minislots over",
        Check::Accepted => "accepted",
    }
}
