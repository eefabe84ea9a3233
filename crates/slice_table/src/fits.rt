//! Whether the provisioned flows of an operator fit its keys.

ghost use Rattle.std.specs.Prelude.{◌≡◌, ◌≤◌, true, length, find, option_copied};
ghost use Rattle.plant.specs.Row.{need_of_sets, admits, count_of};
ghost use Rattle.slice_table.specs.Checks.{sids_needed, minislots_needed, provision_elements, counts_fit, needs_fit, do_fit, is_overfull, provisioned_fault};

use crate::plant_fault::PlantFault;
use admission::{Budget, IdRange};
use param_sets::{Sets, Units, need};
use plant::{Consts, OperatorRow, Provision, RowFields};

/// What the provisioned flows of an operator need together.
#[derive(Clone, Copy)]
struct Demand {
    sids: usize,
    minislots: u64,
    elements: u64,
}

/// Returns what a provisioned flow needs.
fn need_of_sets(units: &Units, sets: &Option<Sets>) -> Budget
    ensures exact { result ≡ need_of_sets units.now sets.now }
    ensures few { result.elements ≤ 127 }
{
    let Some(sets) = sets else {
        return Budget::NOTHING;
    };
    match sets.get_admitted() {
        Some(set) => need(&set, units),
        None => Budget::NOTHING,
    }
}

/// Returns whether a flow is opened with an admitted set.
fn admits(sets: &Option<Sets>) -> bool
    ensures { result ≡ admits sets.now }
{
    match sets {
        Some(sets) => sets.get_admitted().is_some(),
        None => false,
    }
}

/// Returns how many numbers a range has.
fn count_of(range: &IdRange) -> u64
    ensures { result ≡ count_of range.now }
{
    u64::from(range.get_last()) + 1 - u64::from(range.get_first())
}

/// Returns what provisioned flows need together.
#[tactic(auto, unfolding(crate::specs::Checks::sids_needed, crate::specs::Checks::minislots_needed, crate::specs::Checks::provision_elements))]
fn demand_of(consts: &Consts, provisions: &[Provision]) -> Demand
    requires { length provisions.now ≤ 1024 }
    ensures sids { result.sids ≡ sids_needed consts.now provisions.now }
    ensures minislots { result.minislots ≡ minislots_needed consts.now provisions.now }
    ensures elements { result.elements ≡ provision_elements consts.now provisions.now }
{
    let mut all = Demand {
        sids: 0,
        minislots: 0,
        elements: 0,
    };
    let mut before: Option<&Provision> = None;
    let mut sets: Option<Sets> = None;
    for provision in provisions {
        sets = provision.sets_after(consts, before, sets);
        before = Some(provision);
        let need = need_of_sets(&consts.get_fields().units, &sets);
        all.sids += usize::from(admits(&sets));
        all.minislots += u64::from(need.minislots);
        all.elements += u64::from(need.elements);
    }
    all
}

/// Returns whether the provisioned flows fit the flows and the SFIDs.
#[tactic(auto, unfolding(crate::specs::Checks::counts_fit))]
fn counts_fit(row: &RowFields) -> bool
    ensures value { result ≡ counts_fit row.now }
    ensures few { result ≡ true → length row.now.provisions ≤ row.now.flows }
{
    let count = row.provisions.as_slice().len();
    count <= usize::from(row.flows) && count as u64 <= count_of(&row.sfids)
}

/// Returns whether what the provisioned flows need fits the SIDs, the budget and the quota.
#[tactic(auto, unfolding(crate::specs::Checks::needs_fit))]
fn needs_fit(consts: &Consts, row: &RowFields) -> bool
    requires { length row.now.provisions ≤ 1024 }
    ensures { result ≡ needs_fit consts.now row.now }
{
    let demand = demand_of(consts, row.provisions.as_slice());
    demand.sids as u64 <= count_of(&row.sids)
        && demand.minislots <= u64::from(row.budget)
        && demand.elements <= u64::from(row.elements)
}

/// Returns whether an operator's provisioned flows fit.
#[tactic(auto, unfolding(crate::specs::Checks::do_fit))]
fn do_fit(consts: &Consts, row: &OperatorRow) -> bool
    ensures { result ≡ do_fit consts.now row.now }
{
    let fields = row.get_fields();
    counts_fit(fields) && needs_fit(consts, fields)
}

/// Returns the first operator whose provisioned flows do not fit.
fn first_overfull<'a>(consts: &Consts, rows: &'a [OperatorRow]) -> Option<&'a OperatorRow>
    ensures { option_copied result ≡ find (is_overfull consts.now) rows.now }
{
    rows.iter().find(|row| !do_fit(consts, row))
}

/// Returns the fault that the provisioned flows of an operator do not fit.
#[tactic(auto, unfolding(crate::specs::Checks::provisioned_fault))]
pub(crate) fn provisioned_fault(consts: &Consts, rows: &[OperatorRow]) -> Option<PlantFault>
    ensures { result ≡ provisioned_fault consts.now rows.now }
{
    match first_overfull(consts, rows) {
        Some(row) => Some(PlantFault::ProvisionedOver {
            operator: row.get_fields().name,
        }),
        None => None,
    }
}
