//! Free identifiers of a range, and the ledger of what the flows of one operator have committed.
#![tactic(auto)]

mod budget;
mod id_range;
mod ledger;
mod place;

pub use budget::Budget;
pub use id_range::{IdRange, least_free_is_given, least_free_is_one, unused_is_given};
pub use ledger::{Ledger, LedgerFault, Over};
pub use place::place_of;
