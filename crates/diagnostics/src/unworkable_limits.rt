//! Limits of an operator that cannot be reached together.

use crate::file::File;
use crate::key_messages::KeyMessages;
use crate::reason::{GapText, Reason};
use admission::IdRange;
use param_sets::need_if;
use plant::{Consts, Provision, RowFields};
use slice_table::{Field, Place};

/// What the provisioned flows of an operator take.
#[derive(Clone, Copy)]
struct ProvisionedShare {
    /// How many flows they are.
    flows: u64,
    /// How many of them have no admitted set: they take no SID and no elements.
    idle: u64,
    /// The elements of each MAP that the others take.
    elements: u64,
}

impl ProvisionedShare {
    /// Adds what a provisioned flow takes.
    fn add(&mut self, consts: &Consts, provision: &Provision) {
        let admitted = match provision.sets(consts) {
            Some(sets) => sets.get_admitted(),
            None => None,
        };
        let need = need_if(consts.get_fields().units, admitted);
        self.flows = self.flows.saturating_add(1);
        self.elements = self.elements.saturating_add(u64::from(need.elements));
        if admitted.is_none() {
            self.idle = self.idle.saturating_add(1);
        }
    }
}

/// Returns what the provisioned flows of an operator take.
fn share_of(consts: &Consts, row: &RowFields) -> ProvisionedShare {
    let mut share = ProvisionedShare {
        flows: 0,
        idle: 0,
        elements: 0,
    };
    for provision in row.provisions.as_slice() {
        share.add(consts, provision);
    }
    share
}

/// Returns how many numbers a range has.
fn count_of(range: &IdRange) -> u64 {
    let (first, last) = (u64::from(range.get_first()), u64::from(range.get_last()));
    last.saturating_add(1).saturating_sub(first)
}

/// Adds that a range has fewer numbers than an operator may have flows that take one. So many flows take none.
fn add_range(
    found: &mut KeyMessages,
    file: &File<'_>,
    place: Place,
    row: &RowFields,
    field: Field,
    idle: u64,
) {
    let (range, taker) = match field {
        Field::Sids => (&row.sids, "each admitted flow takes one"),
        _ => (&row.sfids, "each flow takes one"),
    };
    let flows = u64::from(row.flows);
    let most = count_of(range).saturating_add(idle);
    if most < flows {
        found.add_key(
            file,
            place,
            field,
            "{} [{}, {}] has too few numbers for flows {}: {}: widen it, or write flows = {}",
            &[
                GapText::Words(field.text()),
                GapText::Number(u64::from(range.get_first())),
                GapText::Number(u64::from(range.get_last())),
                GapText::Number(flows),
                GapText::Words(taker),
                GapText::Number(most),
            ],
        );
    }
}

/// Says what to do where at most so many flows have elements.
fn say_allowed_flows(reason: &mut Reason, most: u64) {
    reason.say("raise elements", &[]);
    if most > 0 {
        reason.say(", or write flows = {}", &[GapText::Number(most)]);
    }
}

/// Adds that an operator has fewer elements than its flows take, each the least that a flow can take.
fn add_elements(
    found: &mut KeyMessages,
    file: &File<'_>,
    place: Place,
    row: &RowFields,
    share: ProvisionedShare,
) {
    let (flows, elements) = (u64::from(row.flows), u64::from(row.elements));
    let others = elements.saturating_sub(share.elements);
    let most = share.flows.saturating_add(others);
    if most >= flows {
        return;
    }
    let mut advice = Reason::new(found.alloc());
    say_allowed_flows(&mut advice, most);
    found.add_key(
        file,
        place,
        Field::Elements,
        "elements {} is too small for flows {}: each admitted flow takes 1 or more, a best effort flow 2, a polled one 3: {}",
        &[
            GapText::Number(elements),
            GapText::Number(flows),
            GapText::Told(&advice),
        ],
    );
}

/// Adds that no flow of an operator can send: without a budget it has best effort flows alone, and these need the head.
fn add_budget(
    found: &mut KeyMessages,
    file: &File<'_>,
    consts: &Consts,
    place: Place,
    row: &RowFields,
) {
    if row.budget == 0 && consts.get_fields().channel.head == 0 {
        found.add_key(
            file,
            place,
            Field::Budget,
            "budget 0 admits best effort flows alone, and with head 0 these cannot request minislots: raise budget, or head",
            &[],
        );
    }
}

/// Adds the limits of an operator that its flows cannot reach.
pub(crate) fn add_limits(
    found: &mut KeyMessages,
    file: &File<'_>,
    consts: &Consts,
    operator: usize,
    row: &RowFields,
) {
    let place = Place::Operator(operator);
    let share = share_of(consts, row);
    add_range(found, file, place, row, Field::Sfids, 0);
    add_range(found, file, place, row, Field::Sids, share.idle);
    add_budget(found, file, consts, place, row);
    add_elements(found, file, place, row, share);
}
