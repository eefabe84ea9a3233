//! The description of a plant: what all operators share, what each is provisioned with, and when a plant is valid. Which operator
//! lists a modem.
#![tactic(auto)]

mod class_table;
mod comparison;
mod consts;
mod laws;
mod name;
mod operator_row;
mod plant;
mod provision;
mod routes;

pub use class_table::{Class, Classes};
pub use comparison::{are_same_consts, is_same_name, is_same_plant, is_same_row, keeps_consts};
pub use consts::{Backoffs, Channel, Consts, ConstsFields};
pub use laws::{holder_is_first, one_operator_lists};
pub use name::{OperatorName, is_alphanumeric};
pub use operator_row::{Modems, OperatorRow, RowFields, is_listed};
pub use plant::{Op, Plant, PlantFields, Rows};
pub use provision::{Provision, Provisions};
pub use routes::{Routes, Routing};
