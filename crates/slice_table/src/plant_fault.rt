//! Why a plant file is refused.

ghost use Rattle.std.specs.Prelude.{◌≡◌};
ghost use Rattle.slice_table.specs.declared.plant_fault.PlantFault.TheVariants.{BadValue, NoMemory};
ghost use Rattle.slice_table.specs.declared.plant_key.Key.TheVariants.{Entry};

use crate::plant_key::{Field, Key, Place};
use dsx_messages::Modem;
use plant::OperatorName;
use std::alloc::{AllocError, AllocFailed};
use thiserror::Error;

/// Why a plant file is refused: the first that holds, in this order.
#[derive(Clone, Copy, Debug, PartialEq, Eq, Error)]
pub enum PlantFault {
    /// The text is not TOML.
    #[error("no TOML")]
    NotToml,
    /// A key that is required is not there.
    #[error("the key {key} is missing")]
    Missing { key: Key },
    /// What is under a key is not of its type, or not in its range.
    #[error("the key {key} has a wrong value")]
    BadValue { key: Key },
    /// The slices of two operators have a minislot in common.
    #[error("the slices of {a} and {b} meet")]
    SlicesMeet { a: OperatorName, b: OperatorName },
    /// The SIDs of two operators have one in common.
    #[error("the SIDs of {a} and {b} meet")]
    SidsMeet { a: OperatorName, b: OperatorName },
    /// The SFIDs of two operators have one in common.
    #[error("the SFIDs of {a} and {b} meet")]
    SfidsMeet { a: OperatorName, b: OperatorName },
    /// An address is listed twice.
    #[error("the modem {modem} is listed twice")]
    ModemTwice { modem: Modem },
    /// A MAP could need more than 240 elements.
    #[error("a MAP could need {total} elements")]
    TooManyElements { total: usize },
    /// An operator's budget is more than its slice.
    #[error("the budget of {operator} is more than its slice")]
    BudgetOverSlice { operator: OperatorName },
    /// The flows that an operator is provisioned with do not fit.
    #[error("the provisioned flows of {operator} do not fit")]
    ProvisionedOver { operator: OperatorName },
    /// There was no memory.
    #[error("out of memory")]
    NoMemory,
}

impl Place {
    /// Returns the fault that what is under a key of this table is not of its type, or not in its
    /// range.
    pub(crate) fn wrong(self, field: Field) -> PlantFault
        ensures { result ≡ BadValue (Entry self field) }
    {
        PlantFault::BadValue {
            key: Key::Entry(self, field),
        }
    }
}

impl From<AllocError> for PlantFault {
    ghost from_gives = { λ _ fault. fault ≡ NoMemory };

    fn from(_: AllocError) -> PlantFault {
        PlantFault::NoMemory
    }
}

impl<T: Drop> From<AllocFailed<T>> for PlantFault {
    ghost from_gives = { λ _ fault. fault ≡ NoMemory };

    fn from(_: AllocFailed<T>) -> PlantFault {
        PlantFault::NoMemory
    }
}
