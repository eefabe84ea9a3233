//! What an operator is provisioned with.

ghost use Rattle.std.specs.Prelude.{◌≡◌, IfOk};
ghost use Rattle.plant.specs.Row.{IsRow, is_listed};
ghost use Rattle.plant.specs.declared.operator_row.RowFields.{RowFields};

use crate::name::OperatorName;
use crate::provision::{Provisions, copy_provisions};
use admission::IdRange;
use dsx_messages::Modem;
use grant_policy::Policy;
use lists::Listed;
use slice_scheduler::Slice;
use std::alloc::{AllocError, Global};
use std::marker::Model;

/// The modems of an operator.
pub type Modems = Listed<Modem>;

/// Returns whether a modem is among an operator's.
pub fn is_listed(modem: Modem, modems: &[Modem]) -> bool
    ensures { result ≡ is_listed modem modems.now }
{
    modems.contains(&modem)
}

/// What an operator is provisioned with.
#[derive(Debug, Drop)]
pub struct RowFields {
    pub name: OperatorName,
    /// Its minislots of each frame.
    pub slice: Slice,
    /// The SFIDs that its flows get: 1 or more.
    pub sfids: IdRange,
    /// The SIDs that its flows get: 1 to 8,191.
    pub sids: IdRange,
    /// How many flows it may have: 1 to 1,024.
    pub flows: u16,
    /// How many transactions may be kept at once: 1 to 256.
    pub transactions: u16,
    /// How many messages and requests may wait in its inbox: 1 to 256.
    pub inbox: u16,
    /// The minislots of each frame that may be committed: 0 to 4,096.
    pub budget: u16,
    /// The elements of each MAP that may be committed: 0 to 235.
    pub elements: u16,
    /// By what its flows are ordered.
    pub policy: Policy,
    /// Its modems: 1 to 1,024.
    pub modems: Modems,
    /// The flows that it is opened with, each of one of its modems.
    pub provisions: Provisions,
}

/// An operator's row, each key in its range. Contracts see the keys.
#[derive(Debug, Drop)]
pub struct OperatorRow {
    fields: RowFields,
}

impl Model for OperatorRow {
    ghost Value = { RowFields };

    ghost view = { λ r. r.fields };

    ghost invariant = { λ r. IsRow r.fields };
}

impl OperatorRow {
    /// Returns the row of these keys. The caller knows that each is in its range.
    pub fn new(fields: RowFields) -> OperatorRow
        requires { IsRow fields }
        ensures { result ≡ fields }
    {
        OperatorRow { fields }
    }

    /// Returns the keys of the operator's row.
    pub fn get_fields(&self) -> &RowFields
        ensures value { result.now ≡ self.now }
        ensures in_range { IsRow result.now }
    {
        &self.fields
    }

    /// Returns an equal value with memory of its own.
    pub fn copy(&self, alloc: Global) -> Result<OperatorRow, AllocError>
        ensures { IfOk result (λ row. row ≡ self.now) }
    {
        Ok(OperatorRow {
            fields: RowFields {
                name: self.fields.name,
                slice: self.fields.slice,
                sfids: self.fields.sfids,
                sids: self.fields.sids,
                flows: self.fields.flows,
                transactions: self.fields.transactions,
                inbox: self.fields.inbox,
                budget: self.fields.budget,
                elements: self.fields.elements,
                policy: self.fields.policy,
                modems: self.fields.modems.copy(alloc)?,
                provisions: copy_provisions(alloc, self.fields.provisions.as_slice())?,
            },
        })
    }
}
