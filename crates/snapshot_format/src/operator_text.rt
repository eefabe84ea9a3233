//! The text of an operator's state.

ghost use Rattle.std.specs.Prelude.{◌≡◌, ◌++◌, OnOk};
ghost use Rattle.std.specs.List.{flat_map};
ghost use Rattle.std.specs.String.{string_bytes};
ghost use Rattle.snapshot_format.specs.Text.{share_text, next_text, head_text, operator_text};

use crate::flow_text::put_flows;
use crate::response_text::{put_arrivals, put_entries};
use crate::saved::SavedOperator;
use operator_model::{NextShare, Share};
use std::alloc::{AllocError, Global};

/// Adds a slice and a budget.
#[tactic(auto, unfolding(crate::specs::Text::share_text))]
fn put_share(text: &mut String, share: &Share) -> Result<(), AllocError>
    ensures { OnOk result (string_bytes text.new ≡ string_bytes text.old ++ share_text share.now) }
{
    let start = share.slice.get_start();
    let length = share.slice.get_length();
    let budget = share.budget;
    write!(text, "{start} {length} {budget}\n")
}

/// Adds the line of what waits for a frame.
#[tactic(auto, unfolding(crate::specs::Text::next_text))]
fn put_next(text: &mut String, next: &Option<NextShare>) -> Result<(), AllocError>
    ensures { OnOk result (string_bytes text.new ≡ string_bytes text.old ++ next_text next.now) }
{
    match next {
        None => text.push_str("next -\n"),
        Some(next) => {
            let from = next.from;
            write!(text, "next ={from} ")?;
            put_share(text, &next.share)
        }
    }
}

/// Adds the line that says whose records follow, and how many.
#[tactic(auto, unfolding(crate::specs::Text::head_text))]
fn put_head(text: &mut String, saved: &SavedOperator) -> Result<(), AllocError>
    ensures { OnOk result (string_bytes text.new ≡ string_bytes text.old ++ head_text saved.now) }
{
    let name = saved.name;
    let flows = saved.flows.len();
    let kept = saved.kept.len();
    let inbox = saved.inbox.len();
    write!(text, "operator {name} {flows} {kept} {inbox}\n")
}

/// Adds the lines of an operator's state.
#[tactic(auto, unfolding(crate::specs::Text::operator_text))]
fn put_operator(alloc: Global, text: &mut String, saved: &SavedOperator) -> Result<(), AllocError>
    ensures { OnOk result (string_bytes text.new ≡ string_bytes text.old ++ operator_text saved.now) }
{
    put_head(text, saved)?;
    text.push_str("slice ")?;
    put_share(text, &saved.share)?;
    put_next(text, &saved.next)?;
    put_flows(alloc, text, saved.flows.as_slice())?;
    put_entries(alloc, text, saved.kept.as_slice())?;
    put_arrivals(alloc, text, saved.inbox.as_slice())
}

/// Adds the lines of operators' states, in order.
pub(crate) fn put_operators(
    alloc: Global,
    text: &mut String,
    operators: &[SavedOperator],
) -> Result<(), AllocError>
    ensures { OnOk result (string_bytes text.new ≡ string_bytes text.old ++ flat_map operator_text operators.now) }
{
    for operator in operators {
        put_operator(alloc, text, operator)?;
    }
    Ok(())
}
