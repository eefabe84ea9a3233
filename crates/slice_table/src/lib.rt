//! The reader of plant files: the plant that a text says, or the first of its faults.
#![tactic(auto)]

mod checks;
mod file_keys;
mod fits;
mod key_laws;
mod laws;
mod own_modems;
mod plant_fault;
mod plant_key;
mod ranges;
mod read_consts;
mod read_rows;
mod reading;
mod roster;
mod row_laws;
mod tree;

pub use file_keys::{
    class_fields, fault_is_of_the_first_key, flow_fields, operator_fields, plant_fields,
    read_keys_are_right, right_keys_are_read,
};
pub use key_laws::{default_is_said, number_is_said, policy_is_said, range_is_said, slice_is_said};
pub use laws::{
    consts_are_said, first_again_is_named, first_is_named, least_pair_is_named, plant_is_said,
};
pub use plant::{Consts, Op, OperatorRow, Plant};
pub use plant_fault::PlantFault;
pub use plant_key::{Field, Key, Place};
pub use reading::read_plant;
pub use row_laws::{
    address_is_said, modems_are_said, name_is_said, provisions_are_said, row_is_said, rows_are_said,
};
