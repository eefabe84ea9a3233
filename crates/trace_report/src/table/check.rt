//! The checks of a message, and of a request.

ghost use Rattle.std.specs.Prelude.{◌≡◌, ◌⊎◌, ◌↔◌, ◌≤◌, ◌-◌, Some, None, IfSome};
ghost use Rattle.std.specs.List.{slice_get};
ghost use Rattle.dsx_messages.specs.declared.modem.Modem.{Modem};
ghost use Rattle.operator_model.specs.declared.verdict.Verdict.{Verdict};
ghost use Rattle.operator_model.specs.Handle.{reply_of};
ghost use Rattle.operator_model.specs.State.{Operator};
ghost use Rattle.trace_report.specs.declared.table.check.Check.TheVariants.{WrongSetType, NoParameterSet};
ghost use Rattle.trace_report.specs.table.Said.{Said};
ghost use Rattle.trace_report.specs.table.Answering.{AnswersCheck};
ghost use Rattle.trace_report.specs.table.Table.{table};
ghost use Rattle.trace_report.specs.table.Messages.{message_table};

use dsx_messages::Code;

/// A check that a message with no acknowledgement meets, in the order of the table (docs/RULES.md).
#[derive(Clone, Copy, Debug, PartialEq, Eq)]
pub enum MessageCheck {
    /// There is no byte, the type is not ours, or the fixed part is short.
    Unread,
    /// The transaction ID of a request is one of the CMTS.
    OfCmts,
    /// The transaction of a request is kept already.
    Repeated,
    /// As many transactions are kept as the row allows.
    KeptFull,
    /// The rest of a request could not be read.
    Faulty,
    /// None of those before: the checks of the request decide.
    Judged,
}

/// A check that a request meets once it is read and its transaction is new, in the order of the table
/// (docs/RULES.md).
#[derive(Clone, Copy, Debug, PartialEq, Eq)]
pub enum Check {
    /// An encoding names a service class that the plant has not.
    UnknownClass,
    /// An addition or a change has no encoding.
    NoEncoding,
    /// The identifiers of the encodings differ.
    IdentifiersDiffer,
    /// There are more encodings than one, and not two of which one admits a set and the other activates one.
    NotTogether,
    /// The encodings have no identifier.
    NoIdentifier,
    /// The operator has no such flow.
    UnknownFlow,
    /// The flow is another modem's.
    NotOwner,
    /// The flow waits for an acknowledgement.
    FlowWaits,
    /// The one encoding has no set type, or one that is not taken.
    WrongSetType,
    /// An encoding asks for no parameter set.
    NoParameterSet,
    /// The active set is not within the admitted one.
    ActiveNotWithin,
    /// The admitted set is not within the flow's provisioned one.
    AdmittedNotWithin,
    /// The operator has as many flows as its row allows.
    FlowsFull,
    /// No SFID is free for a new flow.
    NoSfidFree,
    /// No SID is free for a flow that needs one.
    NoSidFree,
    /// More elements would be committed than the operator's quota has.
    ElementsOver,
    /// More minislots would be committed than its budget has.
    MinislotsOver,
    /// None of those before: the request is accepted.
    Accepted,
}

impl MessageCheck {
    /// Returns its number in the table of docs/RULES.md; 5, the first of those of a request, where
    /// these decide.
    pub fn number(self) -> u8
        ensures { slice_get message_table result ≡ Some self }
    {
        match self {
            MessageCheck::Unread => 0,
            MessageCheck::OfCmts => 1,
            MessageCheck::Repeated => 2,
            MessageCheck::KeptFull => 3,
            MessageCheck::Faulty => 4,
            MessageCheck::Judged => 5,
        }
    }
}

impl Check {
    /// Returns its number in the table of docs/RULES.md.
    pub fn number(self) -> u8
        ensures { (5 ≤ result) × (slice_get table (result - 5) ≡ Some self) }
    {
        match self {
            Check::UnknownClass => 5,
            Check::NoEncoding => 6,
            Check::IdentifiersDiffer => 7,
            Check::NotTogether => 8,
            Check::NoIdentifier => 9,
            Check::UnknownFlow => 10,
            Check::NotOwner => 11,
            Check::FlowWaits => 12,
            Check::WrongSetType => 13,
            Check::NoParameterSet => 14,
            Check::ActiveNotWithin => 15,
            Check::AdmittedNotWithin => 16,
            Check::FlowsFull => 17,
            Check::NoSfidFree => 18,
            Check::NoSidFree => 19,
            Check::ElementsOver => 20,
            Check::MinislotsOver => 21,
            Check::Accepted => 22,
        }
    }

    /// Returns the code of each of its answers; none where that depends on the invalid encoding.
    pub fn code(self) -> Option<Code>
        ensures answered { (op : Operator) (modem : Modem) (said : Said) (answer : Verdict) → AnswersCheck self op modem said answer
            → IfSome result (λ code. (reply_of answer).code ≡ code) }
        ensures none { (result ≡ None) ↔ ((self ≡ WrongSetType) ⊎ (self ≡ NoParameterSet)) }
    {
        match self {
            Check::WrongSetType | Check::NoParameterSet => None,
            Check::UnknownClass => Some(Code::RejectPermanent),
            Check::NoEncoding | Check::NoIdentifier => {
                Some(Code::RejectRequiredParameterNotPresent)
            }
            Check::IdentifiersDiffer => Some(Code::RejectMultipleUpstreamFlows),
            Check::NotTogether => Some(Code::RejectDuplicateReference),
            Check::UnknownFlow => Some(Code::RejectFlowNotFound),
            Check::NotOwner => Some(Code::RejectNotOwner),
            Check::ActiveNotWithin => Some(Code::RejectInvalidForContext),
            Check::AdmittedNotWithin => Some(Code::RejectAuthorizationFailure),
            Check::FlowWaits
            | Check::FlowsFull
            | Check::NoSfidFree
            | Check::NoSidFree
            | Check::ElementsOver
            | Check::MinislotsOver => Some(Code::RejectTemporary),
            Check::Accepted => Some(Code::Okay),
        }
    }
}
