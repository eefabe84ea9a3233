//! What standard error says of a service that does not begin.

use operator_book::StateFault;
use plant_restart::{RestartFault, RestoreFault};
use snapshot_format::Wrong;
use state_service::BeginFault;
use std::alloc::{AllocError, Global};
use std::io;

/// Returns what is wrong with a line of a snapshot.
pub(crate) fn wrong_text(wrong: Wrong) -> &'static str {
    match wrong {
        Wrong::Version => "it does not begin with melfjits-snapshot 1",
        Wrong::Cut => "the text ends within it",
        Wrong::Shape => "another record is due there",
        Wrong::Range => "a number is out of its range",
        Wrong::Parameters => "a parameter is not valid for the scheduling type",
        Wrong::NotWithin => "a parameter set exceeds the set above it",
        Wrong::Repeated => "an identifier is repeated or out of order",
        Wrong::LineCount => "it states another number of lines",
        Wrong::Checksum => "it states another checksum",
        Wrong::Surplus => "it is after the last line",
    }
}

/// Returns what is wrong with the flows or the budget of an operator, or nothing if it is something else.
fn flow_text(alloc: Global, why: StateFault) -> Option<Result<String, AllocError>> {
    let text = match why {
        StateFault::TooManyFlows { flows } => format!(in alloc;
            "it has {flows} flows, more than its limit"
        ),
        StateFault::FlowOrder { sfid } => format!(in alloc;
            "SFID {sfid} is repeated or out of order"
        ),
        StateFault::SfidOutOfRange { sfid } => format!(in alloc; "SFID {sfid} is not in its range"),
        StateFault::SidOutOfRange { sfid, sid } => format!(in alloc;
            "SID {sid} of flow {sfid} is not in its range"
        ),
        StateFault::NoSid { sfid } => format!(in alloc; "flow {sfid} has no SID"),
        StateFault::StrayBacklog { sfid } => format!(in alloc;
            "flow {sfid} has a backlog and does not request grants"
        ),
        StateFault::LaterFlow { sfid } => format!(in alloc;
            "flow {sfid} counts from a frame that is to come"
        ),
        StateFault::OtherProvisioned { sfid } => format!(in alloc;
            "the sets that wait of flow {sfid} are provisioned otherwise"
        ),
        StateFault::SidNotNew { sfid } => format!(in alloc;
            "flow {sfid} awaits its SID and has an admitted set"
        ),
        StateFault::SidTwice { sfid, sid } => format!(in alloc;
            "SID {sid} of flow {sfid} is also that of another flow"
        ),
        StateFault::OverElements { elements } => format!(in alloc;
            "its flows take {elements} elements, more than its quota"
        ),
        StateFault::OverCommitted { minislots } => format!(in alloc;
            "its flows are committed {minislots} minislots, more than its budget"
        ),
        StateFault::OverNextBudget { minislots } => format!(in alloc;
            "its flows are committed {minislots} minislots, more than its next budget"
        ),
        _ => return None,
    };
    Some(text)
}

/// Returns what is wrong with the state of an operator.
pub(crate) fn state_text(alloc: Global, why: StateFault) -> Result<String, AllocError> {
    if let Some(text) = flow_text(alloc, why) {
        return text;
    }
    match why {
        StateFault::TooManyResponses { responses } => format!(in alloc;
            "it has {responses} cached responses, more than its limit"
        ),
        StateFault::TooManyMessages { messages } => format!(in alloc;
            "it has {messages} messages in its inbox, more than its limit"
        ),
        StateFault::ModemInUse { modem } => format!(in alloc;
            "modem {modem} has a flow, a cached response or a message, and is not listed"
        ),
        StateFault::NoSuchSlice { start, length } => format!(in alloc;
            "its slice {start}/{length} is not within the frame"
        ),
        StateFault::BudgetOverSlice { budget } => format!(in alloc;
            "its budget {budget} is greater than its slice"
        ),
        StateFault::NextNotLater { from } => format!(in alloc;
            "its next slice starts at frame {from}, which is not to come"
        ),
        StateFault::NotAwaited { sfid } => format!(in alloc;
            "a response awaits an acknowledgement, and flow {sfid} does not"
        ),
        StateFault::AwaitedTwice { sfid } => format!(in alloc;
            "two responses await an acknowledgement of flow {sfid}"
        ),
        StateFault::ResponseTwice { modem, tid } => format!(in alloc;
            "there are two responses of modem {modem} and transaction {tid}"
        ),
        StateFault::ResponseTimer { modem, tid } => format!(in alloc;
            "the timer of modem {modem} and transaction {tid} is invalid"
        ),
        _ => String::from_str(alloc, "it is not one of its plant file"),
    }
}

/// Returns why operators do not start in their saved states.
fn restart_text(alloc: Global, why: RestartFault) -> Result<String, AllocError> {
    match why {
        RestartFault::State { op, why } => {
            let text = state_text(alloc, why)?;
            format!(in alloc; "operator {op} (counted from 0) cannot go on: {text}")
        }
        RestartFault::Core { why: _ } => String::from_str(
            alloc,
            "the operators of the snapshot do not go together: their frames or slices disagree",
        ),
        RestartFault::NoMemory => String::from_str(alloc, "out of memory"),
    }
}

/// Returns why saved states are not restored.
pub(crate) fn restore_text(alloc: Global, why: RestoreFault) -> Result<String, AllocError> {
    match why {
        RestoreFault::UnknownOperator { name } => format!(in alloc;
            "the plant file has no operator {name}"
        ),
        RestoreFault::Restart { why } => restart_text(alloc, why),
    }
}

/// Returns why a service does not begin, and what to do.
pub(crate) fn begin_reason(alloc: Global, fault: &BeginFault) -> Result<String, AllocError> {
    match fault {
        BeginFault::NotText => String::from_str(
            alloc,
            "the plant file is not UTF-8: save it as UTF-8\n",
        ),
        BeginFault::InvalidSnapshot { number, wrong } => {
            let what = wrong_text(*wrong);
            format!(in alloc;
                "line {number} of the snapshot is invalid: {what}; use a snapshot as the program wrote it\n"
            )
        }
        BeginFault::InvalidPlant { .. } => String::from_str(
            alloc,
            "the plant file is invalid: `plant_script check` with it says why\n",
        ),
        BeginFault::NotRestored { why } => {
            let what = restore_text(alloc, *why)?;
            format!(in alloc; "the snapshot does not fit its plant file: {what}\n")
        }
        BeginFault::NoMemory => String::from_str(
            alloc,
            "out of memory: the run needs more memory than this process may use\n",
        ),
    }
}

/// Returns what failed of a read or a write.
pub(crate) fn io_reason(alloc: Global, error: &io::Error) -> Result<String, AllocError> {
    match error.kind() {
        io::ErrorKind::FileTooLarge => String::from_str(
            alloc,
            "the plant file is longer than 1,048,576 bytes, or the records of the snapshot than 1 GiB\n",
        ),
        _ => format!(in alloc; "a read or a write failed: {error}\n"),
    }
}
