//! What a parameter set needs.

ghost use Rattle.std.specs.Prelude.{◌≡◌, ◌≤◌};
ghost use Rattle.param_sets.specs.Need.{need_of, need_if};

use crate::param_set::ParamSet;
use crate::scheduling::Scheduling;
use crate::units::Units;
use admission::Budget;

/// Returns what a flow with these parameters needs of each frame and of its MAP: minislots for its
/// reserved rate and two elements; where it is polled one minislot and one element more; with
/// unsolicited grants the minislots of all of them and an element for each.
pub fn need(set: &ParamSet, units: &Units) -> Budget
    ensures exact { result ≡ need_of set.now units.now }
    ensures some { 1 ≤ result.elements }
    ensures few { result.elements ≤ 127 }
{
    let fields = set.get_fields();
    let reserve = units.reserve(fields.min_reserved_rate);
    match fields.scheduling {
        Scheduling::BestEffort => Budget {
            minislots: reserve,
            elements: 2,
        },
        Scheduling::NonRealTimePolling | Scheduling::RealTimePolling => Budget {
            minislots: 1 + reserve,
            elements: 3,
        },
        Scheduling::UnsolicitedGrant => {
            let grants = fields.grants_per_interval as u32;
            Budget {
                minislots: grants * units.minislots(fields.grant_size as u32),
                elements: grants,
            }
        }
    }
}

/// Returns what a set needs, where there is one.
#[inline(always)]
pub fn need_if(units: Units, set: Option<ParamSet>) -> Budget
    ensures { result ≡ need_if units set }
{
    match set {
        None => Budget::NOTHING,
        Some(set) => need(&set, &units),
    }
}
