//! The records of an operator.

ghost use Rattle.std.specs.Prelude.{◌≡◌};
ghost use Rattle.std.specs.List.{list_any};
ghost use Rattle.std.specs.Str.{bytes_eq};
ghost use Rattle.lists.specs.Results.{result_map, Gives};
ghost use Rattle.snapshot_format.specs.Reading.{read_cause};
ghost use Rattle.snapshot_format.specs.Records.{checked_share, take_share, take_slice, take_next_share, take_next, take_head, take_operator, take_operators};

use crate::fault::{ReadFault, Wrong};
use crate::fields::{stop_at, take_literal, take_long, take_name, take_presence, take_short};
use crate::flow_records::take_flows;
use crate::response_records::{take_arrivals, take_entries};
use crate::saved::SavedOperator;
use lists::Listed;
use operator_model::{NextShare, Share};
use plant::OperatorName;
use slice_scheduler::Slice;
use std::alloc::Global;

/// Whose records follow, and how many of each kind.
#[derive(Clone, Copy, Debug, PartialEq, Eq)]
pub(crate) struct OperatorHead {
    pub(crate) name: OperatorName,
    pub(crate) flows: u16,
    pub(crate) kept: u16,
    pub(crate) inbox: u16,
}

/// Returns a slice and a budget, if the slice is within a frame.
fn checked_share(start: u16, length: u16, budget: u16) -> Result<Share, Wrong>
    ensures { result_map (λ share. share) result ≡ checked_share start length budget }
{
    if length >= 1 && start as u32 + length as u32 <= 4096 {
        let slice = Slice::new(start, length);
        Ok(Share { slice, budget })
    } else {
        Err(Wrong::Range)
    }
}

/// Returns a slice and a budget, and what is after their line.
#[tactic(auto, unfolding(crate::specs::Records::take_share))]
fn take_share(bytes: &[u8]) -> Result<(Share, &[u8]), ReadFault>
    ensures { Gives read_cause (λ x. (x.0, x.1.now)) result (take_share bytes.now) }
{
    let (start, rest) = take_short(bytes, b' ')?;
    let (length, rest) = take_short(rest, b' ')?;
    let (budget, rest) = take_short(rest, b'\n')?;
    match checked_share(start, length, budget) {
        Ok(share) => Ok((share, rest)),
        Err(wrong) => Err(stop_at(wrong, bytes)),
    }
}

/// Returns the slice and the budget in force, and what is after their line.
#[tactic(auto, unfolding(crate::specs::Records::take_slice))]
fn take_slice(bytes: &[u8]) -> Result<(Share, &[u8]), ReadFault>
    ensures { Gives read_cause (λ x. (x.0, x.1.now)) result (take_slice bytes.now) }
{
    let rest = take_literal(bytes, b"slice ")?;
    take_share(rest)
}

/// Returns the slice and the budget that wait for a frame, and what is after their line.
#[tactic(auto, unfolding(crate::specs::Records::take_next_share))]
fn take_next_share(bytes: &[u8]) -> Result<(NextShare, &[u8]), ReadFault>
    ensures { Gives read_cause (λ x. (x.0, x.1.now)) result (take_next_share bytes.now) }
{
    let (from, rest) = take_long(bytes, b' ')?;
    let (share, rest) = match take_share(rest) {
        Ok(taken) => taken,
        Err(fault) => return Err(fault),
    };
    Ok((NextShare { from, share }, rest))
}

/// Returns what waits for a frame if something does, and what is after its line.
#[tactic(auto, unfolding(crate::specs::Records::take_next))]
fn take_next(bytes: &[u8]) -> Result<(Option<NextShare>, &[u8]), ReadFault>
    ensures { Gives read_cause (λ x. (x.0, x.1.now)) result (take_next bytes.now) }
{
    let rest = take_literal(bytes, b"next ")?;
    let (is_there, rest) = take_presence(rest, b'\n')?;
    if !is_there {
        return Ok((None, rest));
    }
    let (next, rest) = match take_next_share(rest) {
        Ok(taken) => taken,
        Err(fault) => return Err(fault),
    };
    Ok((Some(next), rest))
}

/// Returns whose records follow and how many there are, and what is after that line.
#[tactic(auto, unfolding(crate::specs::Records::take_head))]
fn take_head(bytes: &[u8]) -> Result<(OperatorHead, &[u8]), ReadFault>
    ensures { Gives read_cause (λ x. (x.0, x.1.now)) result (take_head bytes.now) }
{
    let rest = take_literal(bytes, b"operator ")?;
    let (name, rest) = match take_name(rest, b' ') {
        Ok(taken) => taken,
        Err(fault) => return Err(fault),
    };
    let (flows, rest) = take_short(rest, b' ')?;
    let (kept, rest) = take_short(rest, b' ')?;
    let (inbox, rest) = take_short(rest, b'\n')?;
    let head = OperatorHead {
        name,
        flows,
        kept,
        inbox,
    };
    Ok((head, rest))
}

/// Returns the state of an operator, and what is after its lines.
#[tactic(auto, unfolding(crate::specs::Records::take_operator))]
fn take_operator(alloc: Global, bytes: &[u8]) -> Result<(SavedOperator, &[u8]), ReadFault>
    ensures { Gives read_cause (λ x. (x.0, x.1.now)) result (take_operator bytes.now) }
{
    let (head, rest) = match take_head(bytes) {
        Ok(taken) => taken,
        Err(fault) => return Err(fault),
    };
    let (share, rest) = match take_slice(rest) {
        Ok(taken) => taken,
        Err(fault) => return Err(fault),
    };
    let (next, rest) = match take_next(rest) {
        Ok(taken) => taken,
        Err(fault) => return Err(fault),
    };
    let (flows, rest) = match take_flows(alloc, head.flows, rest) {
        Ok(taken) => taken,
        Err(fault) => return Err(fault),
    };
    let (kept, rest) = take_entries(alloc, head.kept, rest)?;
    let (inbox, rest) = take_arrivals(alloc, head.inbox, rest)?;
    let operator = SavedOperator {
        name: head.name,
        share,
        next,
        flows,
        kept,
        inbox,
    };
    Ok((operator, rest))
}

/// Returns whether one of the operators has this name.
fn has_name(operators: &[SavedOperator], name: OperatorName) -> bool
    ensures { result ≡ list_any (λ other. bytes_eq other.name name) operators.now }
{
    operators
        .iter()
        .any(|other| other.name.as_slice() == name.as_slice())
}

/// Returns the states of so many operators, each of another name, and what is after them.
#[tactic(auto, unfolding(crate::specs::Records::take_operators))]
pub(crate) fn take_operators(
    alloc: Global,
    count: u16,
    bytes: &[u8],
) -> Result<(Listed<SavedOperator>, &[u8]), ReadFault>
    ensures { Gives read_cause (λ x. (x.0, x.1.now)) result (take_operators count bytes.now) }
{
    let mut operators = Vec::new(alloc);
    let mut rest = bytes;
    for _ in 0..count {
        let (operator, after) = take_operator(alloc, rest)?;
        if has_name(&operators, operator.name) {
            return Err(stop_at(Wrong::Repeated, rest));
        }
        operators.push(operator)?;
        rest = after;
    }
    Ok((Listed::from_vec(operators), rest))
}
