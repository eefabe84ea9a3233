//! Whether one parameter set is within another.

ghost use Rattle.std.specs.Prelude.{◌≡◌, ◌↔◌, Some, None, IsOk, MatchResult};
ghost use Rattle.param_sets.specs.Within.{IsWithin, first_failing, is_greater_limit};

use crate::param_set::{ParamFields, ParamSet};
use crate::refusal::first_true;
use tlv24::subtype;

/// Returns whether `a` asks for no more than `b` (implementation-specific): of the same kind of
/// scheduling (subtype 15), with no greater priority (7), maximum rate (8, in which 0 means no limit)
/// and reserved rate (10), polls no closer (17), and unsolicited grants no greater (19), no closer
/// (20) and no more of them (22).
///
/// The error is the first subtype in which it fails, in this order.
#[tactic(auto, using(crate::proofs::WithinLemmas::is_within, crate::proofs::WithinLemmas::nothing_fails))]
pub fn within(a: &ParamSet, b: &ParamSet) -> Result<(), u8>
    ensures exact { MatchResult result (λ _. first_failing a.now b.now ≡ None) (λ subtype. first_failing a.now b.now
        ≡ Some subtype) }
    ensures ok { IsOk result ↔ IsWithin a.now b.now }
{
    match failing(&a.get_fields(), &b.get_fields()) {
        None => Ok(()),
        Some(subtype) => Err(subtype),
    }
}

/// Returns the first subtype in which `a` is not within `b`.
fn failing(a: &ParamFields, b: &ParamFields) -> Option<u8>
    ensures { result ≡ first_failing a.now b.now }
{
    first_true(&[
        (a.scheduling != b.scheduling, subtype::SCHEDULING_TYPE),
        (a.priority > b.priority, subtype::TRAFFIC_PRIORITY),
        (
            is_greater_limit(a.max_sustained_rate, b.max_sustained_rate),
            subtype::MAX_SUSTAINED_RATE,
        ),
        (
            a.min_reserved_rate > b.min_reserved_rate,
            subtype::MIN_RESERVED_RATE,
        ),
        (
            a.polling_interval < b.polling_interval,
            subtype::POLLING_INTERVAL,
        ),
        (a.grant_size > b.grant_size, subtype::GRANT_SIZE),
        (a.grant_interval < b.grant_interval, subtype::GRANT_INTERVAL),
        (
            a.grants_per_interval > b.grants_per_interval,
            subtype::GRANTS_PER_INTERVAL,
        ),
    ])
}

/// Returns whether `a` is a greater limit than `b`, where 0 means no limit.
fn is_greater_limit(a: u32, b: u32) -> bool
    ensures { result ≡ is_greater_limit a b }
{
    b != 0 && (a == 0 || a > b)
}
