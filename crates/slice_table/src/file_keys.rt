//! The keys of a plant file as a list with their permitted values. A law says that a file is refused for its first invalid key.

mod fields;
mod laws;

pub use fields::{class_fields, flow_fields, operator_fields, plant_fields};
pub use laws::{fault_is_of_the_first_key, read_keys_are_right, right_keys_are_read};
